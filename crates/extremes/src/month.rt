// The extremes of a month of any day source. Each is shown exactly if its element has a value on every day of the month.
ghost use Rattle.extremes.specs.Months.{Highest, Lowest, MostRain, MostWind};

use crate::days::DaysAs;
use crate::kinds::{
    HighTemperature, HighTemperatures, LowTemperature, LowTemperatures, RainDepth, RainDepths,
    WindSpeed,
};
use crate::search::{Extreme, find_extreme};
use columns::month::ObservedMonth;
use daybook::source::DaySource;
use station::element::Element;
use station::wind::WindIndicator;

pub fn highest_temperature<S: DaySource>(
    month: ObservedMonth<'_, S>,
    element: Element,
) -> Option<Extreme<HighTemperature>>
    ensures { Highest (S.grid month.entry.source.now) element month.entry.calendar result }
{
    let high_days = DaysAs {
        source: month.source,
        element,
        kind: HighTemperatures,
    };
    find_extreme(&high_days, month.calendar.length())
}

pub fn lowest_temperature<S: DaySource>(
    month: ObservedMonth<'_, S>,
    element: Element,
) -> Option<Extreme<LowTemperature>>
    ensures { Lowest (S.grid month.entry.source.now) element month.entry.calendar result }
{
    let low_days = DaysAs {
        source: month.source,
        element,
        kind: LowTemperatures,
    };
    find_extreme(&low_days, month.calendar.length())
}

pub fn greatest_rain<S: DaySource>(month: ObservedMonth<'_, S>) -> Option<Extreme<RainDepth>>
    ensures { MostRain (S.grid month.entry.source.now) month.entry.calendar result }
{
    let rain_days = DaysAs {
        source: month.source,
        element: Element::Rain,
        kind: RainDepths,
    };
    find_extreme(&rain_days, month.calendar.length())
}

pub fn greatest_wind<S: DaySource>(
    month: ObservedMonth<'_, S>,
    indicator: WindIndicator,
) -> Option<Extreme<WindSpeed>>
    ensures { MostWind (S.grid month.entry.source.now) month.entry.calendar indicator result }
{
    let wind_days = DaysAs {
        source: month.source,
        element: Element::Wind,
        kind: indicator,
    };
    find_extreme(&wind_days, month.calendar.length())
}
