// Cases for the crates columns, figures and extremes. Each line of standard input is an element's number, a year, a month, a normal of
// sunshine in hours or nothing, and then the element's values on the days from 1 on, nothing where a day is empty, all parted by
// commas. For each, the figures are printed: missing days, those in one digit and those of pressure; the mean and the deviation; rain
// and its days; sunshine and its percentage; days of thunder and of hail; the days at each limit of a report; and the extremes, with
// their day and a + where they recur: the element's highest and lowest value, the greatest rain and the greatest wind. A figure that
// is not shown is printed as -.
#![tactic(auto)]

use columns::month::ObservedMonth;
use columns::phenomenon::Phenomenon;
use columns::table::report_limits;
use daybook::grid_book::GridBook;
use daybook::source::Daybook;
use extremes::month::{greatest_rain, greatest_wind, highest_temperature, lowest_temperature};
use extremes::search::Extreme;
use figures::days::{
    days_at_limit, days_of_weather, missing, missing_digit, missing_pressure, rain_days,
};
use figures::means::{mean, temperature_deviation};
use figures::totals::{rain_total, sunshine_percentage, sunshine_total};
use house_file::cut::cut;
use house_file::lines::Lines;
use house_file::number::read_number;
use station::calendar::CalendarMonth;
use station::element::Element;
use station::refusal::Refusal;
use station::wind::WindIndicator;
use std::fmt::Display;
use std::io;
use std::io::Read;

type BookMonth<'a> = ObservedMonth<'a, GridBook>;

const MOST_DAYS: i32 = 31;

fn show_figure<T: Display + Copy>(rt: &HostRuntime, figure: Option<T>) -> io::Result<()> {
    match figure {
        Some(figure) => print!(rt; " {figure}"),
        None => print!(rt; " -"),
    }
}

fn show_means(rt: &HostRuntime, month: BookMonth<'_>, element: Element) -> io::Result<()> {
    print!(rt;
        "{} {} {}",
        missing(month, element),
        missing_digit(month, element),
        missing_pressure(month)
    )?;
    show_figure(rt, mean(month, element))?;
    show_figure(rt, temperature_deviation(month))
}

fn show_totals(rt: &HostRuntime, month: BookMonth<'_>, normal: Option<u32>) -> io::Result<()> {
    show_figure(rt, rain_total(month))?;
    show_figure(rt, rain_days(month))?;
    show_figure(rt, sunshine_total(month))?;
    show_figure(rt, sunshine_percentage(month, normal))
}

fn show_days(rt: &HostRuntime, month: BookMonth<'_>) -> io::Result<()> {
    show_figure(rt, days_of_weather(month, Phenomenon::Thunder))?;
    show_figure(rt, days_of_weather(month, Phenomenon::Hail))?;
    for limit in report_limits() {
        show_figure(rt, days_at_limit(month, limit))?;
    }
    Ok(())
}

// An extreme whose reading has the value.
fn show_extreme<T: Copy, F: Fn(T) -> i32>(
    rt: &HostRuntime,
    extreme: Option<Extreme<T>>,
    value: F,
) -> io::Result<()>
    requires { F.IsAlwaysCallable value }
{
    match extreme {
        Some(top) => print!(rt;
            " {}@{}{}",
            value(top.reading),
            top.day,
            if top.recurs { "+" } else { "" }
        ),
        None => print!(rt; " -"),
    }
}

fn show_extremes(rt: &HostRuntime, month: BookMonth<'_>, element: Element) -> io::Result<()> {
    show_extreme(rt, highest_temperature(month, element), |highest| highest.0)?;
    show_extreme(rt, lowest_temperature(month, element), |lowest| lowest.0)?;
    show_extreme(rt, greatest_rain(month), |rain| rain.0)?;
    let wind = greatest_wind(month, WindIndicator::Measured);
    show_extreme(rt, wind, |wind| wind.speed)
}

// Enters the fields of the rest of a line as an element's values of the days from 1 on.
fn enter_values(book: &mut GridBook, element: Element, values: &[u8]) -> Result<(), Refusal> {
    let number = i32::from(u8::from(element));
    for (day, field) in (1..=MOST_DAYS).zip(values.split(|byte| *byte == b',')) {
        if let Some((value, _)) = read_number(field) {
            book.enter(day, number, value)?;
        }
    }
    Ok(())
}

fn normal_of(field: &[u8]) -> Option<u32> {
    read_number(field).map(|(hours, _)| hours.unsigned_abs())
}

fn show_case(
    rt: &HostRuntime,
    element: Element,
    calendar: CalendarMonth,
    rest: &[u8],
) -> io::Result<()> {
    let (normal, values) = cut(rest, b',');
    let mut book = GridBook::new();
    if enter_values(&mut book, element, values).is_err() {
        return println!(rt; "declined");
    }
    let month = ObservedMonth {
        source: &book,
        calendar,
    };
    show_means(rt, month, element)?;
    show_totals(rt, month, normal_of(normal))?;
    show_days(rt, month)?;
    show_extremes(rt, month, element)?;
    println!(rt; "")
}

// The element and the month that a line begins with, and the rest of it; or why it has none.
fn read_case(line: &[u8]) -> Result<(Element, CalendarMonth, &[u8]), &'static str> {
    let (element, rest) = read_number(line).ok_or("no element")?;
    let (year, rest) = read_number(rest).ok_or("no year")?;
    let (month, rest) = read_number(rest).ok_or("no month")?;
    let element = Element::try_from(element).map_err(|_| "no such element")?;
    let month = CalendarMonth::check(year, month).map_err(|_| "no such month")?;
    Ok((element, month, rest))
}

fn show(rt: &HostRuntime, line: &[u8]) -> io::Result<()> {
    match read_case(line) {
        Ok((element, month, rest)) => show_case(rt, element, month, rest),
        Err(fault) => println!(rt; "{fault}"),
    }
}

fn main(rt: HostRuntime) -> io::Result<()> {
    let mut input = Vec::new(rt.alloc());
    rt.stdin().read_to_end(&mut input)?;
    for line in Lines::of(input.as_slice()) {
        show(&rt, line)?;
    }
    Ok(())
}
