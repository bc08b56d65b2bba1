// Runs of calls on any daybook.
ghost use Rattle.std.specs.Prelude.{◌≡◌};
ghost use Rattle.daybook.specs.Runs.{answer_to, after, standing, carried_out, RunsBy};

use crate::call::{Answer, Call, Logged};
use crate::source::{DaySource, Daybook};

pub fn perform<B: DaySource + Daybook>(book: &mut B, call: Call) -> Answer
    ensures answer { result ≡ answer_to (B.grid book.old) (B.limit book.old) call }
    ensures after { B.grid book.new ≡ after (B.grid book.old) (B.limit book.old) call }
    ensures ceiling { B.limit book.new ≡ B.limit book.old }
{
    match call {
        Call::Enter {
            day,
            element,
            value,
        } => Answer::Changed(book.enter(day, element, value)),
        Call::Strike { day, element } => Answer::Changed(book.strike(day, element)),
        Call::LookUp { day, element } => Answer::Found(book.look_up(day, element)),
    }
}

// Carries out each call of the log in turn, and notes its answer beside it.
pub fn carry_out<B: DaySource + Daybook>(book: &mut B, log: &mut [Logged])
    ensures log { log.new ≡ carried_out (B.grid book.old) (B.limit book.old) log.old }
    ensures after { B.grid book.new ≡ standing (B.grid book.old) (B.limit book.old) log.old }
    ensures ceiling { B.limit book.new ≡ B.limit book.old }
    ensures laws { RunsBy (B.grid book.old) (B.limit book.old) log.new (B.grid book.new) }
{
    for logged in log {
        logged.answer = Some(perform(book, logged.call));
    }
}
