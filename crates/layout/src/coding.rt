// Figures as the numbers that their digits write, and back.
ghost use Rattle.std.specs.Prelude.{◌≡◌, ℕ, Bool, true};
ghost use Rattle.layout.specs.Figures.{temperature_code, temperature_at, is_tenths, pressure_code, pressure_at, is_pressure, plain_code, plain_at, rain_code, rain_at, day_code, day_at, is_day, always, on_field};
ghost use Rattle.layout.specs.Backs.{plain_back, rain_back, temperature_back, pressure_back, day_back};

use crate::field::Field;
use crate::figure::{DayCode, PlainNumber, Pressure, RainAmount, Temperature};

pub trait Figure: Copy {
    ghost code: { Self → ℕ };

    ghost at: { ℕ → Self };

    // a figure that its code tells apart from every other
    ghost fits: { Self → Bool };

    // The number that the figure's digits write.
    fn code(self) -> u32
        ensures { result ≡ code self };

    // The figure whose digits write this number.
    fn decoded(number: u32) -> Self
        ensures { result ≡ at number };

    ghost back: { (x : Self) → fits x ≡ true → at (code x) ≡ x };
}

impl Figure for PlainNumber {
    ghost code = { plain_code };

    ghost at = { plain_at };

    ghost fits = { always };

    ghost back = { plain_back };

    fn code(self) -> u32 {
        self.number
    }

    fn decoded(number: u32) -> PlainNumber {
        PlainNumber { number }
    }
}

impl Figure for RainAmount {
    ghost code = { rain_code };

    ghost at = { rain_at };

    ghost fits = { always };

    ghost back = { rain_back };

    fn code(self) -> u32 {
        self.code
    }

    fn decoded(number: u32) -> RainAmount {
        RainAmount { code: number }
    }
}

// The sign of a temperature below zero, before three digits.
const BELOW_ZERO: u32 = 1000;

impl Figure for Temperature {
    ghost code = { temperature_code };

    ghost at = { temperature_at };

    ghost fits = { is_tenths };

    ghost back = { temperature_back };

    fn code(self) -> u32 {
        let size = self.tenths.unsigned_abs();
        if self.tenths < 0 {
            BELOW_ZERO + size
        } else {
            size
        }
    }

    fn decoded(number: u32) -> Temperature {
        if number < BELOW_ZERO {
            return Temperature {
                tenths: number as i32,
            };
        }
        Temperature {
            tenths: -((number % BELOW_ZERO) as i32),
        }
    }
}

// The pressure from which the thousand is dropped, in tenths of a hectopascal.
const THOUSAND: u32 = 10000;

// The numbers below this one lack their thousand.
const FOUR_DIGITS: u32 = 1000;

impl Figure for Pressure {
    ghost code = { pressure_code };

    ghost at = { pressure_at };

    ghost fits = { is_pressure };

    ghost back = { pressure_back };

    fn code(self) -> u32 {
        if self.tenths < THOUSAND {
            self.tenths
        } else {
            self.tenths - THOUSAND
        }
    }

    fn decoded(number: u32) -> Pressure {
        if number < FOUR_DIGITS {
            return Pressure {
                tenths: THOUSAND + number,
            };
        }
        Pressure { tenths: number }
    }
}

// What is added to the day of an extreme that recurs.
const RECURS: u32 = 50;

impl Figure for DayCode {
    ghost code = { day_code };

    ghost at = { day_at };

    ghost fits = { is_day };

    ghost back = { day_back };

    fn code(self) -> u32 {
        if self.recurs {
            u32::from(self.day) + RECURS
        } else {
            u32::from(self.day)
        }
    }

    fn decoded(number: u32) -> DayCode {
        DayCode {
            day: (number % RECURS) as u8,
            recurs: number >= RECURS,
        }
    }
}

// A field by the number that its digits write.
pub fn coded<F: Figure>(field: Field<F>) -> Field<u32>
    ensures { result ≡ on_field F.Figure.code field }
{
    field.map(F::code)
}

// A field with the figure that its digits stand for.
pub fn decoded<F: Figure>(field: Field<u32>) -> Field<F>
    ensures { result ≡ on_field F.Figure.at field }
{
    field.map(|number| F::decoded(number))
}
