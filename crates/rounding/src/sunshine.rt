// A month's sunshine, in hours and as a percentage of the normal.
ghost use Rattle.std.specs.Prelude.{◌≡◌};
ghost use Rattle.rounding.specs.Sunshine.{whole_hours, HoursLaw, percentage_of, PercentageLaw};

use crate::halves::half_up;

const ONE_HOUR: u64 = 10;

// Sunshine in hundredths of an hour, divided by hours, is a percentage.
const HUNDREDTHS_IN_TENTH: u64 = 10;

// The percentage where the normal is no sunshine at all.
const NO_NORMAL: u16 = 999;

// The percentages between which any sunshine at all is put.
const LEAST_PERCENTAGE: u64 = 1;

const MOST_PERCENTAGE: u64 = 998;

// Whole hours, halves up.
pub fn whole_hours(tenths: u32) -> u32
    ensures value { result ≡ whole_hours tenths }
    ensures law { HoursLaw tenths result }
{
    half_up(u64::from(tenths), ONE_HOUR) as u32
}

// The sunshine in tenths as a percentage of the normal in hours, halves up, from the total before it is rounded.
pub fn percentage(tenths: u32, normal: u32) -> u16
    ensures value { result ≡ percentage_of tenths normal }
    ensures law { PercentageLaw tenths normal result }
{
    if normal == 0 {
        return NO_NORMAL;
    }
    if tenths == 0 {
        return 0;
    }
    let near = half_up(HUNDREDTHS_IN_TENTH * u64::from(tenths), u64::from(normal));
    near.clamp(LEAST_PERCENTAGE, MOST_PERCENTAGE) as u16
}
