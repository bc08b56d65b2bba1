// Missing days, and days that are counted.
ghost use Rattle.std.specs.Prelude.{◌≡◌};
ghost use Rattle.columns.specs.Columns.{column, empties};
ghost use Rattle.columns.specs.Counts.{meets, shows, rain_day};
ghost use Rattle.station.specs.declared.element.Element.TheVariants.{Rain, Weather};
ghost use Rattle.station.specs.Months.{days_of};
ghost use Rattle.figures.specs.Days.{one_digit, pressure_missing, count_shown};

use columns::condition::Condition;
use columns::limit::{Comparison, Limit};
use columns::month::ObservedMonth;
use columns::phenomenon::Phenomenon;
use daybook::source::DaySource;
use station::element::Element;

// The highest number that one digit tells.
const MOST_TOLD: u8 = 9;

const NONE_MISSING: u8 = 0;

const RAIN_DAY: Limit = Limit {
    element: Element::Rain,
    comparison: Comparison::AtLeast,
    bound: 10,
};

// The days of the month on which the element has no value.
pub fn missing<S: DaySource>(month: ObservedMonth<'_, S>, element: Element) -> u8
    ensures { result ≡ empties (column (S.grid month.entry.source.now) element) (days_of month.entry.calendar) }
{
    month.tally(element).empties
}

// The same in one digit: more than nine are told as nine.
pub fn missing_digit<S: DaySource>(month: ObservedMonth<'_, S>, element: Element) -> u8
    ensures { result ≡ one_digit (empties (column (S.grid month.entry.source.now) element) (days_of month.entry.calendar)) }
{
    missing(month, element).min(MOST_TOLD)
}

// The missing days of pressure: the larger of those at the station and at sea level.
pub fn missing_pressure<S: DaySource>(month: ObservedMonth<'_, S>) -> u8
    ensures { result ≡ pressure_missing (S.grid month.entry.source.now) (days_of month.entry.calendar) }
{
    let station = missing(month, Element::StationPressure);
    station.max(missing(month, Element::SeaLevelPressure))
}

fn shown_count<S: DaySource, C: Condition>(
    month: ObservedMonth<'_, S>,
    element: Element,
    condition: C,
) -> Option<u8>
    ensures { result ≡ count_shown (C.passes condition) (column (S.grid month.entry.source.now) element) (days_of month.entry.calendar) }
{
    (missing(month, element) == NONE_MISSING).then(move || month.days_when(element, condition))
}

// On how many days the limit's element meets it; none where a day is empty.
pub fn days_at_limit<S: DaySource>(month: ObservedMonth<'_, S>, limit: Limit) -> Option<u8>
    ensures { result ≡ count_shown (meets limit) (column (S.grid month.entry.source.now) limit.element) (days_of month.entry.calendar) }
{
    shown_count(month, limit.element, limit)
}

// On how many days there was rain of 1.0 mm or more; none where a day is empty.
pub fn rain_days<S: DaySource>(month: ObservedMonth<'_, S>) -> Option<u8>
    ensures { result ≡ count_shown (meets rain_day) (column (S.grid month.entry.source.now) Rain) (days_of month.entry.calendar) }
{
    days_at_limit(month, RAIN_DAY)
}

// On how many days there was thunder, or hail; none where a day's weather is not known.
pub fn days_of_weather<S: DaySource>(
    month: ObservedMonth<'_, S>,
    phenomenon: Phenomenon,
) -> Option<u8>
    ensures { result ≡ count_shown (shows phenomenon) (column (S.grid month.entry.source.now) Weather) (days_of month.entry.calendar) }
{
    shown_count(month, Element::Weather, phenomenon)
}
