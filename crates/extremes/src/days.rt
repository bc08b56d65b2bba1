// The days of a day source as readings of a kind.
ghost use Rattle.extremes.specs.Kinds.{days_as};

use crate::kinds::{HighTemperatures, Kind, LowTemperatures, RainDepths};
use crate::search::Readings;
use daybook::reading::reading;
use daybook::source::DaySource;
use station::element::Element;
use station::wind::WindIndicator;

// An element's days, whose values are read as the kind says.
#[derive(Drop)]
pub struct DaysAs<'a, S, K> {
    pub source: &'a S,
    pub element: Element,
    pub kind: K,
}

// Those of which the highest temperature is sought.
pub type HighDays<'a, S> = DaysAs<'a, S, HighTemperatures>;

// Those of which the lowest temperature is sought.
pub type LowDays<'a, S> = DaysAs<'a, S, LowTemperatures>;

// Those of which the greatest rain is sought.
pub type RainDays<'a, S> = DaysAs<'a, S, RainDepths>;

// Those of which the greatest wind is sought, observed as the indicator says.
pub type WindDays<'a, S> = DaysAs<'a, S, WindIndicator>;

impl<'a, S: DaySource, K: Kind> Readings for DaysAs<'a, S, K> {
    type Item = K::Reading;

    ghost at = { λ d. days_as (K.reads d.kind) (S.DaySource.grid d.source.now) d.element };

    fn on(&self, day: u8) -> Option<K::Reading> {
        reading(self.source, day, self.element).map(|value| self.kind.read(value))
    }
}
