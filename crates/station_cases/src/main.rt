// Cases for the crate station: lengths of months, ranges of elements, and checks of sheets at the ends of their limits.
#![tactic(auto)]

use station::calendar::CalendarMonth;
use station::element::Element;
use station::sheet::Sheet;
use std::io;

const YEARS: [i32; 20] = [
    1949, 1950, 1951, 1952, 1999, 2000, 2001, 2023, 2024, 2096, 2100, 2104, 2200, 2300, 2400, 2800,
    2900, 2948, 2949, 2950,
];

const VALUES: [i32; 22] = [
    -2147483648,
    -901,
    -900,
    -1,
    0,
    3,
    4,
    240,
    241,
    600,
    601,
    999,
    1000,
    3999,
    4000,
    8499,
    8500,
    9999,
    10000,
    10999,
    11000,
    2147483647,
];

const SHEETS: [[i32; 4]; 14] = [
    [1000, 1950, 1, 0],
    [98999, 2949, 12, 1],
    [999, 1950, 1, 0],
    [99000, 1950, 1, 0],
    [-1000, 1950, 1, 0],
    [1000, 1949, 1, 0],
    [1000, 2950, 1, 0],
    [1000, 1950, 0, 0],
    [1000, 1950, 13, 0],
    [1000, 1950, 1, -1],
    [1000, 1950, 1, 2],
    [1000, 1950, 1, 3],
    [2147483647, 2147483647, 2147483647, 2147483647],
    [-2147483648, -2147483648, -2147483648, -2147483648],
];

fn show_year(rt: &HostRuntime, year: i32) -> io::Result<()> {
    print!(rt; "{year}:")?;
    for month in 0..14 {
        match CalendarMonth::check(year, month) {
            Ok(found) => print!(rt; " {}", found.length())?,
            Err(refusal) => print!(rt; " ({refusal})")?,
        }
    }
    println!(rt; "")
}

fn show_element(rt: &HostRuntime, number: i32) -> io::Result<()> {
    match Element::try_from(number) {
        Ok(element) => {
            print!(rt;
                "{number} {} {}..{}:",
                element.symbol(),
                element.lowest(),
                element.highest()
            )?;
            for value in VALUES {
                print!(rt; " {}", u8::from(element.takes(value)))?;
            }
            println!(rt; "")
        }
        Err(_) => println!(rt; "{number} none"),
    }
}

fn show_sheet(rt: &HostRuntime, numbers: [i32; 4]) -> io::Result<()> {
    let [station, year, month, iw] = numbers;
    match Sheet::check(station, year, month, iw) {
        Ok(sheet) => println!(rt;
            "sheet {} {} {} {}",
            sheet.station(),
            sheet.calendar().year(),
            sheet.calendar().month(),
            u8::from(sheet.wind())
        ),
        Err(refusal) => println!(rt; "declined with {refusal}"),
    }
}

fn main(rt: HostRuntime) -> io::Result<()> {
    for year in YEARS {
        show_year(&rt, year)?;
    }
    for number in -1..15 {
        show_element(&rt, number)?;
    }
    for numbers in SHEETS {
        show_sheet(&rt, numbers)?;
    }
    Ok(())
}
