// The standard deviation of a month's temperatures.
ghost use Rattle.std.specs.Prelude.{◌≡◌, ◌^◌, ◌<◌, ◌≤◌};
ghost use Rattle.rounding.specs.Deviations.{Deviates, deviation_of, Deviated, SumsGrow};

const LEAST_DAYS: u64 = 1;

const MOST_DAYS: u64 = 31;

// No temperature is farther from zero than 90.0 degrees.
const FARTHEST: u64 = 900;

// The deviation of count values with this sum and this sum of squares, in whole tenths, halves up.
// There is none where these are not a month's temperatures: no days or too many, sums too large for their range, or
// squares too small for the sum.
pub fn deviation(count: u32, sum: i32, squares: u64) -> Option<u16>
    ensures value { result ≡ deviation_of count sum squares }
    ensures law { Deviated count sum squares result }
    ensures sums { SumsGrow }
{
    let n = u64::from(count);
    let size = u64::from(sum.unsigned_abs());
    if n < LEAST_DAYS || n > MOST_DAYS || size > FARTHEST * n || squares > FARTHEST * FARTHEST * n {
        return None;
    }
    let scatter = (n * squares).checked_sub(size * size)?;
    Some(nearest_root(scatter, n * n) as u16)
}

// The whole number nearest to the root of scatter / divisor, halves up.
fn nearest_root(scatter: u64, divisor: u64) -> u64
    requires divisor_nonzero { 0 < divisor }
    requires scatter_bound { scatter < 2 ^ 60 }
    ensures { Deviates divisor scatter result }
{
    // twice the root counts its halves, of which every second begins another number
    ((4 * scatter / divisor).isqrt() + 1) / 2
}
