// How a station observes its wind, both in metres per second.
ghost use Rattle.std.specs.Prelude.{◌≡◌};
ghost use Rattle.station.specs.Refusals.{BearerOf};
ghost use Rattle.station.specs.declared.refusal.Refusal.TheVariants.{Sheet};
ghost use Rattle.station.specs.Sheets.{indicator_number, indicator_numbered};

use crate::refusal::Refusal;

#[derive(Clone, Copy, PartialEq, Eq, Debug)]
pub enum WindIndicator {
    Estimated = 0,
    Measured = 1,
}

// The code figure iw.
impl From<WindIndicator> for u8 {
    ghost from_gives = { λ w n. n ≡ indicator_number w };

    fn from(indicator: WindIndicator) -> u8 {
        indicator as u8
    }
}

// The indicator with a code figure.
impl TryFrom<i32> for WindIndicator {
    type Error = Refusal;

    ghost try_from_gives = { λ n r. BearerOf indicator_number n (indicator_numbered n) Sheet r };

    fn try_from(number: i32) -> Result<WindIndicator, Refusal> {
        match number {
            0 => Ok(WindIndicator::Estimated),
            1 => Ok(WindIndicator::Measured),
            _ => Err(Refusal::Sheet),
        }
    }
}
