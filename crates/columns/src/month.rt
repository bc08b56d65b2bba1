// A month as a day source has it.
ghost use Rattle.std.specs.Prelude.{◌≡◌};
ghost use Rattle.station.specs.Months.{days_of};
ghost use Rattle.columns.specs.Columns.{column, tally_of, Tallied};
ghost use Rattle.columns.specs.Counts.{days_when, Counted};

use crate::condition::Condition;
use crate::count::days_when;
use crate::sums::tally;
use crate::tally::Tally;
use daybook::source::DaySource;
use station::calendar::CalendarMonth;
use station::element::Element;

// The days of a calendar month in a day source, which is lent and so stays as it is.
#[derive_where(Clone, Copy)]
pub struct ObservedMonth<'a, S> {
    pub source: &'a S,
    pub calendar: CalendarMonth,
}

impl<'a, S: DaySource> ObservedMonth<'a, S> {
    pub fn tally(self, element: Element) -> Tally
        ensures value { result ≡ tally_of (column (S.grid self.entry.source.now) element) (days_of self.entry.calendar) }
        ensures law { Tallied (column (S.grid self.entry.source.now) element) (days_of self.entry.calendar) result }
    {
        tally(self.source, element, self.calendar.length())
    }

    // On how many days the element's value meets the condition.
    pub fn days_when<C: Condition>(self, element: Element, condition: C) -> u8
        ensures value { result ≡ days_when (C.passes condition) (column (S.grid self.entry.source.now) element) (days_of self.entry.calendar) }
        ensures law { Counted (C.passes condition) (column (S.grid self.entry.source.now) element) (days_of self.entry.calendar) result }
    {
        days_when(self.source, element, condition, self.calendar.length())
    }
}
