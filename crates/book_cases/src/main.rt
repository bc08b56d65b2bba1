// Cases for the two daybooks, side by side: the same calls on a grid book and on a list book, for several numbers of lines. First
// on empty books, then after every pair was entered. Of each call the answer of the grid book is printed, and then that of the
// list book: ok, a value, - for an empty pair, or R and the number of the refusal.
#![tactic(auto)]

use daybook::call::{Answer, Call};
use daybook::grid_book::GridBook;
use daybook::reading::days_held;
use daybook::run::perform;
use daybook::source::{DaySource, Daybook};
use list_book::book::ListBook;
use list_book::line::blank_line;
use station::element::Element;
use std::io;

const MOST_DAYS: u8 = 31;

const MOST_LINES: usize = 400;

const LINES: [usize; 6] = [0, 1, 2, 371, 372, MOST_LINES];

const fn enter(day: i32, element: i32, value: i32) -> Call {
    Call::Enter {
        day,
        element,
        value,
    }
}

fn calls() -> [Call; 16] {
    [
        enter(7, 3, -12),
        enter(31, 12, 3),
        enter(1, 1, 10000),
        enter(7, 3, 15),
        Call::LookUp { day: 7, element: 3 },
        Call::LookUp { day: 1, element: 1 },
        Call::Strike { day: 7, element: 3 },
        Call::Strike { day: 7, element: 3 },
        enter(1, 1, 4000),
        Call::LookUp { day: 1, element: 1 },
        Call::LookUp {
            day: 31,
            element: 12,
        },
        enter(0, 13, 9),
        enter(1, 13, 9),
        enter(1, 12, 4),
        Call::Strike {
            day: 32,
            element: 1,
        },
        Call::LookUp { day: 1, element: 0 },
    ]
}

fn show_answer(rt: &HostRuntime, answer: Answer) -> io::Result<()> {
    match answer {
        Answer::Changed(Ok(())) => print!(rt; " ok"),
        Answer::Changed(Err(refusal)) => print!(rt; " R{refusal}"),
        Answer::Found(Ok(Some(value))) => print!(rt; " {value}"),
        Answer::Found(Ok(None)) => print!(rt; " -"),
        Answer::Found(Err(refusal)) => print!(rt; " R{refusal}"),
    }
}

fn show_call(rt: &HostRuntime, call: Call) -> io::Result<()> {
    match call {
        Call::Enter {
            day,
            element,
            value,
        } => print!(rt; "enter {day} {element} {value}:"),
        Call::Strike { day, element } => print!(rt; "strike {day} {element}:"),
        Call::LookUp { day, element } => print!(rt; "look up {day} {element}:"),
    }
}

// How many pairs are filled.
fn filled<S: DaySource>(source: &S) -> u16 {
    Element::ALL.iter().fold(0, |pairs: u16, element| {
        pairs.saturating_add(u16::from(days_held(source, *element, MOST_DAYS)))
    })
}

// Enters the lowest value at every pair, and answers how many entries were taken.
fn fill<B: DaySource + Daybook>(book: &mut B) -> u16 {
    let mut taken: u16 = 0;
    for day in 1..=MOST_DAYS {
        for element in Element::ALL {
            let number = i32::from(u8::from(element));
            if book.enter(i32::from(day), number, element.lowest()).is_ok() {
                taken = taken.saturating_add(1);
            }
        }
    }
    taken
}

fn run<A: DaySource + Daybook, B: DaySource + Daybook>(
    rt: &HostRuntime,
    first: &mut A,
    second: &mut B,
) -> io::Result<()> {
    for call in calls() {
        show_call(rt, call)?;
        show_answer(rt, perform(first, call))?;
        show_answer(rt, perform(second, call))?;
        println!(rt; "")?;
    }
    println!(rt; "filled: {} {}", filled(first), filled(second))
}

fn side_by_side(rt: &HostRuntime, count: usize) -> io::Result<()> {
    let mut lines = [blank_line(); MOST_LINES];
    let count = count.min(MOST_LINES);
    let mut grid = GridBook::new();
    let mut list = ListBook::new(&mut lines[0..count]);
    println!(rt; "ceilings: {} {}", grid.ceiling(), list.ceiling())?;
    run(rt, &mut grid, &mut list)?;
    println!(rt; "entered: {} {}", fill(&mut grid), fill(&mut list))?;
    run(rt, &mut grid, &mut list)
}

fn main(rt: HostRuntime) -> io::Result<()> {
    for count in LINES {
        println!(rt; "lines: {count}")?;
        side_by_side(&rt, count)?;
    }
    Ok(())
}
