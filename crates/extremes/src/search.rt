// The search for an extreme: one text for every kind of reading that has a ranking.
ghost use Rattle.std.specs.Prelude.{◌≡◌, ℕ, Option};
ghost use Rattle.extremes.specs.Tops.{Searched, after_day};

use crate::ranked::Ranked;

// The readings of days, which count from 1: a reading or none on each.
pub trait Readings {
    type Item: Ranked;

    ghost at: { Self → ℕ → Option Self.Item };

    fn on(&self, day: u8) -> Option<Self::Item>
        ensures { result ≡ at self.now day };
}

// A reading that no other outranks, the first day that has one of its rank, and whether a later day has one too.
#[derive(Clone, Copy)]
pub struct Extreme<T> {
    pub reading: T,
    pub day: u8,
    pub recurs: bool,
}

impl<T: Ranked> Extreme<T> {
    // The extreme once one more day is known.
    fn after(self, reading: T, day: u8) -> Extreme<T>
        ensures { result ≡ after_day T.Ranked.over self reading day }
    {
        if reading.outranks(self.reading) {
            return Extreme {
                reading,
                day,
                recurs: false,
            };
        }
        if self.reading.outranks(reading) {
            return self;
        }
        Extreme {
            recurs: true,
            ..self
        }
    }
}

// The extreme of the days from 1 to the last, or none where there is no day or one has no reading.
pub fn find_extreme<R: Readings>(readings: &R, last: u8) -> Option<Extreme<R::Item>>
    ensures { Searched R.Item.Ranked.over (R.Readings.at readings.now) last result }
{
    if last == 0 {
        return None;
    }
    let mut top = Extreme {
        reading: readings.on(1)?,
        day: 1,
        recurs: false,
    };
    for day in 2..=last {
        top = top.after(readings.on(day)?, day);
    }
    Some(top)
}
