// Days that meet a condition.
ghost use Rattle.std.specs.Prelude.{◌≡◌};
ghost use Rattle.columns.specs.Columns.{column};
ghost use Rattle.columns.specs.Counts.{meets, shows, days_when, Counted};

use crate::condition::Condition;
use crate::limit::{Comparison, Limit};
use crate::phenomenon::Phenomenon;
use daybook::reading::reading;
use daybook::source::DaySource;
use station::element::Element;

impl Condition for Limit {
    ghost passes = { meets };

    fn is_met(&self, value: i32) -> bool {
        match self.comparison {
            Comparison::AtLeast => value >= self.bound,
            Comparison::Above => value > self.bound,
            Comparison::Under => value < self.bound,
        }
    }
}

const THUNDER: i32 = 1;

const HAIL: i32 = 2;

const BOTH: i32 = 3;

impl Condition for Phenomenon {
    ghost passes = { shows };

    fn is_met(&self, value: i32) -> bool {
        match self {
            Phenomenon::Thunder => matches!(value, THUNDER | BOTH),
            Phenomenon::Hail => matches!(value, HAIL | BOTH),
        }
    }
}

// On how many of the days from 1 to the last the element's value meets the condition.
pub fn days_when<S: DaySource, C: Condition>(
    source: &S,
    element: Element,
    condition: C,
    last: u8,
) -> u8
    ensures value { result ≡ days_when (C.passes condition) (column (S.grid source.now) element) last }
    ensures law { Counted (C.passes condition) (column (S.grid source.now) element) last result }
    ensures same { source.exit.now ≡ source.entry.now }
{
    let mut days = 0;
    for day in 1..=last {
        if reading(source, day, element).is_some_and(|value| condition.is_met(value)) {
            days += 1;
        }
    }
    days
}
