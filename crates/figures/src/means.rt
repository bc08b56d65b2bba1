// Means and the deviation.
ghost use Rattle.std.specs.Prelude.{◌≡◌};
ghost use Rattle.station.specs.declared.element.Element.TheVariants.{MeanTemperature};
ghost use Rattle.columns.specs.Columns.{column};
ghost use Rattle.station.specs.Months.{days_of};
ghost use Rattle.figures.specs.Examples.{Examples};
ghost use Rattle.figures.specs.Means.{mean_shown, MeanOf, deviation_shown, DeviationOf};

use columns::month::ObservedMonth;
use daybook::source::DaySource;
use rounding::deviation::deviation;
use rounding::mean::nearest;
use station::element::Element;

// The most days that may be empty where a mean is shown.
const MOST_EMPTY: u8 = 3;

// The mean of an element over the month; none where more than three days are empty.
pub fn mean<S: DaySource>(month: ObservedMonth<'_, S>, element: Element) -> Option<i32>
    ensures value { result ≡ mean_shown (column (S.grid month.entry.source.now) element) (days_of month.entry.calendar) }
    ensures law { MeanOf element (column (S.grid month.entry.source.now) element) (days_of month.entry.calendar) result }
    ensures examples { Examples }
{
    let tally = month.tally(element);
    if tally.empties > MOST_EMPTY {
        return None;
    }
    nearest(tally.sum, u32::from(tally.present))
}

// The standard deviation of the month's mean temperatures, in tenths; none where their mean is not shown.
pub fn temperature_deviation<S: DaySource>(month: ObservedMonth<'_, S>) -> Option<u16>
    ensures value { result ≡ deviation_shown (column (S.grid month.entry.source.now) MeanTemperature) (days_of month.entry.calendar) }
    ensures law { DeviationOf (column (S.grid month.entry.source.now) MeanTemperature) (days_of month.entry.calendar) result }
{
    let tally = month.tally(Element::MeanTemperature);
    if tally.empties > MOST_EMPTY {
        return None;
    }
    deviation(u32::from(tally.present), tally.sum, tally.squares)
}
