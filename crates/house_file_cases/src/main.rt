// Cases for the crate house_file. Each line of standard input is a file, in which | stands for a line feed and ~ for a carriage
// return; a line = is a sound file of 65,536 bytes, and a line + the same with one byte more. For each, its first fault is printed,
// or its sheet and every value that it holds, as day/element=value; and then whether it was entered into a grid book, and how many
// values the book holds.
#![tactic(auto)]

use daybook::grid_book::GridBook;
use daybook::reading::{days_held, reading};
use file_values::day_sheet::DaySheet;
use file_values::enter::enter_file;
use house_file::check::check_file;
use house_file::lines::Lines;
use station::element::Element;
use station::sheet::Sheet;
use std::alloc::{AllocError, Global};
use std::io;
use std::io::Read;

const MOST_DAYS: u8 = 31;

const DAY_LINES: usize = 4095;

fn unescaped(heap: Global, line: &[u8]) -> Result<Vec<u8>, AllocError> {
    let mut text = Vec::new(heap);
    for byte in line {
        match *byte {
            b'|' => text.push(b'\n')?,
            b'~' => text.push(b'\r')?,
            other => text.push(other)?,
        }
    }
    Ok(text)
}

fn longest(heap: Global) -> Result<Vec<u8>, AllocError> {
    let mut text = Vec::new(heap);
    text.extend_from_slice(b"S,1000,1950,1,0\n")?;
    for _ in 0..DAY_LINES {
        text.extend_from_slice(b"D,1,,,,,,,,,,,,\n")?;
    }
    Ok(text)
}

fn file_of(heap: Global, line: &[u8]) -> Result<Vec<u8>, AllocError> {
    match line {
        b"=" => longest(heap),
        b"+" => {
            let mut text = longest(heap)?;
            text.push(b'\n')?;
            Ok(text)
        }
        _ => unescaped(heap, line),
    }
}

fn show_values(rt: &HostRuntime, source: &DaySheet<'_>) -> io::Result<()> {
    for day in 1..=MOST_DAYS {
        for element in Element::ALL {
            if let Some(value) = reading(source, day, element) {
                print!(rt; " {day}/{}={value}", u8::from(element))?;
            }
        }
    }
    Ok(())
}

// How many values a grid book holds once the file is entered.
fn show_entered(rt: &HostRuntime, text: &[u8]) -> io::Result<()> {
    let mut book = GridBook::new();
    let entered = enter_file(&mut book, text).is_ok();
    let mut values: usize = 0;
    for element in Element::ALL {
        values = values.saturating_add(usize::from(days_held(&book, element, MOST_DAYS)));
    }
    println!(rt; " | {} {values}", u8::from(entered))
}

fn show_sheet(rt: &HostRuntime, sheet: Sheet) -> io::Result<()> {
    let calendar = sheet.calendar();
    print!(rt;
        "{} {} {} {}",
        sheet.station(),
        calendar.year(),
        calendar.month(),
        u8::from(sheet.wind())
    )
}

fn show(rt: &HostRuntime, text: &[u8]) -> io::Result<()> {
    match check_file(text) {
        Err(fault) => print!(rt; "{fault}")?,
        Ok(sheet) => show_sheet(rt, sheet)?,
    }
    show_values(rt, &DaySheet::new(text))?;
    show_entered(rt, text)
}

fn main(rt: HostRuntime) -> io::Result<()> {
    let mut input = Vec::new(rt.alloc());
    rt.stdin().read_to_end(&mut input)?;
    for line in Lines::of(input.as_slice()) {
        let text = file_of(rt.alloc(), line)?;
        show(&rt, text.as_slice())?;
    }
    Ok(())
}
