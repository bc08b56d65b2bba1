// Cases for the crate normals. First records that give one number alone, below, at and above its limits, and records with rain:
// ok, or R and the number of the refusal. Then calls on registers of none, one and three lines.
#![tactic(auto)]

use normals::checked::CheckedNormals;
use normals::record::Normals;
use normals::register::{Register, blank_line};
use std::io;
use std::ops::RangeInclusive;

const MOST_LINES: usize = 3;

fn with_mean_temperature(number: i32) -> Normals {
    Normals {
        mean_temperature: Some(number),
        ..CheckedNormals::blank().normals()
    }
}

fn with_rain(rain: i32, days: Option<i32>) -> Normals {
    Normals {
        rain: Some(rain),
        rain_days: days,
        ..CheckedNormals::blank().normals()
    }
}

fn show_check(rt: &HostRuntime, normals: Normals) -> io::Result<()> {
    match CheckedNormals::check(normals) {
        Ok(_) => print!(rt; " ok"),
        Err(refusal) => print!(rt; " R{refusal}"),
    }
}

// The checks of records that give one number alone: below, at and above its limits.
fn show_field<F: Fn(&mut Normals, i32)>(
    rt: &HostRuntime,
    name: &str,
    limits: RangeInclusive<i32>,
    set: F,
) -> io::Result<()>
    requires { F.IsAlwaysCallable set }
{
    let (low, high) = (*limits.start(), *limits.end());
    print!(rt; "{name}:")?;
    for number in [low.saturating_sub(1), low, high, high.saturating_add(1)] {
        let mut normals = CheckedNormals::blank().normals();
        set(&mut normals, number);
        show_check(rt, normals)?;
    }
    println!(rt; "")
}

fn show_measures(rt: &HostRuntime) -> io::Result<()> {
    show_field(rt, "station pressure", 1000..=10999, |normals, number| {
        normals.station_pressure = Some(number)
    })?;
    show_field(rt, "sea level pressure", 1000..=10999, |normals, number| {
        normals.sea_level_pressure = Some(number)
    })?;
    show_field(rt, "mean temperature", -999..=999, |normals, number| {
        normals.mean_temperature = Some(number)
    })?;
    show_field(rt, "highest temperature", -999..=999, |normals, number| {
        normals.highest_temperature = Some(number)
    })?;
    show_field(rt, "lowest temperature", -999..=999, |normals, number| {
        normals.lowest_temperature = Some(number)
    })?;
    show_field(rt, "deviation", 0..=999, |normals, number| {
        normals.deviation = Some(number)
    })?;
    show_field(rt, "vapour pressure", 0..=999, |normals, number| {
        normals.vapour_pressure = Some(number)
    })?;
    show_field(rt, "rain", 0..=309969, |normals, number| {
        normals.rain = Some(number)
    })?;
    show_field(rt, "rain days", 0..=31, |normals, number| {
        normals.rain_days = Some(number)
    })?;
    show_field(rt, "sunshine", 0..=744, |normals, number| {
        normals.sunshine = Some(number)
    })
}

fn show_missing(rt: &HostRuntime) -> io::Result<()> {
    show_field(rt, "years of pressure missing", 0..=99, |normals, number| {
        normals.missing.pressure = number
    })?;
    show_field(
        rt,
        "years of temperature missing",
        0..=99,
        |normals, number| { normals.missing.temperature = number },
    )?;
    show_field(rt, "years of extremes missing", 0..=99, |normals, number| {
        normals.missing.extremes = number
    })?;
    show_field(
        rt,
        "years of vapour pressure missing",
        0..=99,
        |normals, number| { normals.missing.vapour_pressure = number },
    )?;
    show_field(rt, "years of rain missing", 0..=99, |normals, number| {
        normals.missing.rain = number
    })?;
    show_field(rt, "years of sunshine missing", 0..=99, |normals, number| {
        normals.missing.sunshine = number
    })
}

fn show_fields(rt: &HostRuntime) -> io::Result<()> {
    show_field(rt, "first year", 0..=99, |normals, number| {
        normals.first_year = number
    })?;
    show_field(rt, "last year", 0..=99, |normals, number| {
        normals.last_year = number
    })?;
    show_measures(rt)?;
    show_missing(rt)?;
    show_field(rt, "print", 0..=1, |normals, number| {
        normals.print = number
    })
}

fn show_rain(rt: &HostRuntime) -> io::Result<()> {
    print!(rt; "rain and days:")?;
    for rain in [0, 1] {
        for days in [None, Some(0), Some(1), Some(31), Some(32)] {
            show_check(rt, with_rain(rain, days))?;
        }
    }
    println!(rt; "")
}

fn store(
    rt: &HostRuntime,
    register: &mut Register<'_>,
    station: i32,
    month: i32,
    number: i32,
) -> io::Result<()> {
    print!(rt; "store {station} {month} {number}:")?;
    match register.store(station, month, with_mean_temperature(number)) {
        Ok(()) => println!(rt; " ok, {} records", register.len()),
        Err(refusal) => println!(rt; " R{refusal}, {} records", register.len()),
    }
}

fn show_found(rt: &HostRuntime, found: Option<CheckedNormals>) -> io::Result<()> {
    let Some(found) = found else {
        return print!(rt; " -");
    };
    match found.normals().mean_temperature {
        Some(number) => print!(rt; " {number}"),
        None => print!(rt; " no number"),
    }
}

fn look_up(rt: &HostRuntime, register: &Register<'_>, station: i32, month: i32) -> io::Result<()> {
    print!(rt; "look up {station} {month}:")?;
    match register.look_up(station, month) {
        Ok(found) => show_found(rt, found)?,
        Err(refusal) => print!(rt; " R{refusal}")?,
    }
    println!(rt; "")
}

fn run(rt: &HostRuntime, register: &mut Register<'_>) -> io::Result<()> {
    store(rt, register, 50000, 7, 181)?;
    store(rt, register, 1000, 12, -25)?;
    store(rt, register, 50000, 7, 183)?;
    store(rt, register, 50000, 1, 1000)?;
    store(rt, register, 98999, 1, 7)?;
    store(rt, register, 50000, 6, 150)?;
    store(rt, register, 999, 13, 1000)?;
    store(rt, register, 98999, 1, 8)
}

fn show_register(rt: &HostRuntime, count: usize) -> io::Result<()> {
    let mut lines = [blank_line(); MOST_LINES];
    let count = count.min(MOST_LINES);
    let mut register = Register::new(&mut lines[0..count]);
    println!(rt; "register of {} lines", register.ceiling())?;
    run(rt, &mut register)?;
    for station in [1000, 50000, 98999, 99000] {
        for month in [1, 7, 12, 0] {
            look_up(rt, &register, station, month)?;
        }
    }
    Ok(())
}

fn main(rt: HostRuntime) -> io::Result<()> {
    show_fields(&rt)?;
    show_rain(&rt)?;
    for count in [0, 1, 3] {
        show_register(&rt, count)?;
    }
    Ok(())
}
