// The figures of a month as a table that people read: each with its unit, or why it is not shown.
use columns::limit::{Comparison, Limit};
use columns::month::ObservedMonth;
use columns::phenomenon::Phenomenon;
use columns::table::report_limits;
use daybook::grid_book::GridBook;
use extremes::month::{greatest_rain, greatest_wind, highest_temperature, lowest_temperature};
use extremes::search::Extreme;
use figures::days::{
    days_at_limit, days_of_weather, missing, missing_digit, missing_pressure, rain_days,
};
use figures::means::{mean, temperature_deviation};
use figures::totals::{rain_total, sunshine_total};
use station::element::{Element, Unit};
use station::wind::WindIndicator;
use std::fmt::Display;
use std::io;

type BookMonth<'a> = ObservedMonth<'a, GridBook>;

const MEANS: [Element; 6] = [
    Element::StationPressure,
    Element::SeaLevelPressure,
    Element::MeanTemperature,
    Element::HighestTemperature,
    Element::LowestTemperature,
    Element::VapourPressure,
];

pub(crate) fn show_figures(
    rt: &HostRuntime,
    month: BookMonth<'_>,
    indicator: WindIndicator,
) -> io::Result<()> {
    for element in MEANS {
        show_mean(rt, month, element)?;
    }
    show_deviation(rt, month)?;
    show_rain(rt, month)?;
    show_sunshine(rt, month)?;
    show_missing(rt, month)?;
    for limit in report_limits() {
        show_limit(rt, month, limit)?;
    }
    show_temperatures(rt, month)?;
    show_greatest_rain(rt, month)?;
    show_greatest_wind(rt, month, indicator)?;
    show_weather(rt, month, Phenomenon::Thunder, "thunder")?;
    show_weather(rt, month, Phenomenon::Hail, "hail")
}

fn show_tenths(rt: &HostRuntime, value: i32, unit: &str) -> io::Result<()> {
    let size = value.unsigned_abs();
    let sign = if value < 0 { "-" } else { "" };
    print!(rt; "{}{}.{} {}", sign, size / 10, size % 10, unit)
}

// A value in its element's unit.
fn show_value(rt: &HostRuntime, element: Element, value: i32) -> io::Result<()> {
    match element.unit() {
        Unit::TenthHectopascal => show_tenths(rt, value, "hPa"),
        Unit::TenthDegreeCelsius => show_tenths(rt, value, "°C"),
        Unit::TenthMillimetre => show_tenths(rt, value, "mm"),
        Unit::TenthHour => show_tenths(rt, value, "h"),
        Unit::TenthMetrePerSecond => show_tenths(rt, value, "m/s"),
        Unit::Centimetre => print!(rt; "{value} cm"),
        Unit::TenMetres => print!(rt; "{} m", 10 * i64::from(value)),
        Unit::WeatherCode => print!(rt; "{value}"),
    }
}

fn show_absent(rt: &HostRuntime, month: BookMonth<'_>, element: Element) -> io::Result<()> {
    println!(rt; "not shown, {} days are empty", missing(month, element))
}

// A figure in its element's unit, or why it is not shown.
fn show_figure(
    rt: &HostRuntime,
    month: BookMonth<'_>,
    element: Element,
    figure: Option<i32>,
) -> io::Result<()> {
    let Some(value) = figure else {
        return show_absent(rt, month, element);
    };
    show_value(rt, element, value)?;
    println!(rt; "")
}

fn show_mean(rt: &HostRuntime, month: BookMonth<'_>, element: Element) -> io::Result<()> {
    print!(rt; "mean {}: ", element.symbol())?;
    show_figure(rt, month, element, mean(month, element))
}

fn show_deviation(rt: &HostRuntime, month: BookMonth<'_>) -> io::Result<()> {
    print!(rt; "deviation of T: ")?;
    let deviation = temperature_deviation(month).map(i32::from);
    show_figure(rt, month, Element::MeanTemperature, deviation)
}

fn show_rain(rt: &HostRuntime, month: BookMonth<'_>) -> io::Result<()> {
    print!(rt; "total of R: ")?;
    let Some(code) = rain_total(month) else {
        return show_absent(rt, month, Element::Rain);
    };
    print!(rt; "coded {code:04}")?;
    if let Some(days) = rain_days(month) {
        print!(rt; ", 1.0 mm or more on {days} days")?;
    }
    println!(rt; "")
}

// A count with what it counts, or why it is not shown.
fn show_count<T: Display + Copy>(
    rt: &HostRuntime,
    month: BookMonth<'_>,
    element: Element,
    count: Option<T>,
    unit: &str,
) -> io::Result<()> {
    match count {
        Some(count) => println!(rt; "{count} {unit}"),
        None => show_absent(rt, month, element),
    }
}

fn show_sunshine(rt: &HostRuntime, month: BookMonth<'_>) -> io::Result<()> {
    print!(rt; "total of S: ")?;
    show_count(rt, month, Element::Sunshine, sunshine_total(month), "h")
}

fn show_missing(rt: &HostRuntime, month: BookMonth<'_>) -> io::Result<()> {
    print!(rt;
        "missing days: P {}, T {}, TX {}, TN {}",
        missing_pressure(month),
        missing(month, Element::MeanTemperature),
        missing_digit(month, Element::HighestTemperature),
        missing_digit(month, Element::LowestTemperature)
    )?;
    println!(rt;
        ", E {}, R {}, S {}",
        missing(month, Element::VapourPressure),
        missing(month, Element::Rain),
        missing(month, Element::Sunshine)
    )
}

fn comparison_text(comparison: Comparison) -> &'static str {
    match comparison {
        Comparison::AtLeast => "at least",
        Comparison::Above => "above",
        Comparison::Under => "below",
    }
}

fn show_limit(rt: &HostRuntime, month: BookMonth<'_>, limit: Limit) -> io::Result<()> {
    print!(rt;
        "{} {} ",
        limit.element.symbol(),
        comparison_text(limit.comparison)
    )?;
    show_value(rt, limit.element, limit.bound)?;
    print!(rt; ": ")?;
    let days = days_at_limit(month, limit);
    show_count(rt, month, limit.element, days, "days")
}

fn show_weather(
    rt: &HostRuntime,
    month: BookMonth<'_>,
    phenomenon: Phenomenon,
    name: &str,
) -> io::Result<()> {
    print!(rt; "{name}: ")?;
    let days = days_of_weather(month, phenomenon);
    show_count(rt, month, Element::Weather, days, "days")
}

// An extreme whose reading has the value, with its day, or why it is not shown.
fn show_extreme<T: Copy, F: Fn(T) -> i32>(
    rt: &HostRuntime,
    month: BookMonth<'_>,
    element: Element,
    extreme: Option<Extreme<T>>,
    value: F,
) -> io::Result<()>
    requires { F.IsAlwaysCallable value }
{
    let Some(top) = extreme else {
        return show_absent(rt, month, element);
    };
    show_value(rt, element, value(top.reading))?;
    let again = if top.recurs { " and again" } else { "" };
    println!(rt; " on day {}{again}", top.day)
}

fn show_highest(rt: &HostRuntime, month: BookMonth<'_>, element: Element) -> io::Result<()> {
    print!(rt; "highest {}: ", element.symbol())?;
    let highest = highest_temperature(month, element);
    show_extreme(rt, month, element, highest, |highest| highest.0)
}

fn show_lowest(rt: &HostRuntime, month: BookMonth<'_>, element: Element) -> io::Result<()> {
    print!(rt; "lowest {}: ", element.symbol())?;
    let lowest = lowest_temperature(month, element);
    show_extreme(rt, month, element, lowest, |lowest| lowest.0)
}

fn show_temperatures(rt: &HostRuntime, month: BookMonth<'_>) -> io::Result<()> {
    show_highest(rt, month, Element::MeanTemperature)?;
    show_lowest(rt, month, Element::MeanTemperature)?;
    show_highest(rt, month, Element::HighestTemperature)?;
    show_lowest(rt, month, Element::LowestTemperature)
}

fn show_greatest_rain(rt: &HostRuntime, month: BookMonth<'_>) -> io::Result<()> {
    print!(rt; "greatest R: ")?;
    show_extreme(
        rt,
        month,
        Element::Rain,
        greatest_rain(month),
        |rain| rain.0,
    )
}

fn show_greatest_wind(
    rt: &HostRuntime,
    month: BookMonth<'_>,
    indicator: WindIndicator,
) -> io::Result<()> {
    print!(rt; "greatest F: ")?;
    let wind = greatest_wind(month, indicator);
    show_extreme(rt, month, Element::Wind, wind, |wind| wind.speed)
}
