// Totals of rain and of sunshine.
ghost use Rattle.std.specs.Prelude.{◌≡◌};
ghost use Rattle.station.specs.declared.element.Element.TheVariants.{Rain, Sunshine};
ghost use Rattle.columns.specs.Columns.{column};
ghost use Rattle.station.specs.Months.{days_of};
ghost use Rattle.figures.specs.Totals.{total_shown, rain_shown, RainOf, sunshine_shown, SunshineOf, percentage_shown, PercentageShown};

use columns::month::ObservedMonth;
use daybook::source::DaySource;
use rounding::rain::rain_code;
use rounding::sunshine::{percentage, whole_hours};
use station::element::Element;

const NONE_EMPTY: u8 = 0;

// The month's rain in four digits; none where a day is empty.
pub fn rain_total<S: DaySource>(month: ObservedMonth<'_, S>) -> Option<u16>
    ensures value { result ≡ rain_shown (column (S.grid month.entry.source.now) Rain) (days_of month.entry.calendar) }
    ensures law { RainOf (column (S.grid month.entry.source.now) Rain) (days_of month.entry.calendar) result }
{
    complete_total(month, Element::Rain).map(rain_code)
}

// The month's sunshine in whole hours; none where a day is empty.
pub fn sunshine_total<S: DaySource>(month: ObservedMonth<'_, S>) -> Option<u32>
    ensures value { result ≡ sunshine_shown (column (S.grid month.entry.source.now) Sunshine) (days_of month.entry.calendar) }
    ensures law { SunshineOf (column (S.grid month.entry.source.now) Sunshine) (days_of month.entry.calendar) result }
{
    complete_total(month, Element::Sunshine).map(whole_hours)
}

// The month's sunshine as a percentage of a normal in hours; none where a day is empty or there is no normal.
pub fn sunshine_percentage<S: DaySource>(
    month: ObservedMonth<'_, S>,
    normal: Option<u32>,
) -> Option<u16>
    ensures value { result ≡ percentage_shown (column (S.grid month.entry.source.now) Sunshine) (days_of month.entry.calendar) normal }
    ensures law { PercentageShown (column (S.grid month.entry.source.now) Sunshine) (days_of month.entry.calendar) normal result }
{
    let hours = normal?;
    complete_total(month, Element::Sunshine).map(|tenths| percentage(tenths, hours))
}

// The total of an element over the month; none where a day is empty.
fn complete_total<S: DaySource>(month: ObservedMonth<'_, S>, element: Element) -> Option<u32>
    ensures { result ≡ total_shown (column (S.grid month.entry.source.now) element) (days_of month.entry.calendar) }
{
    let tally = month.tally(element);
    (tally.empties == NONE_EMPTY).then(|| tally.sum.unsigned_abs())
}
