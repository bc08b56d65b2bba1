// The mean of a month's values.
ghost use Rattle.std.specs.Prelude.{◌≡◌};
ghost use Rattle.rounding.specs.Means.{mean_of, Averaged};

use crate::halves::half_up;

// The whole number nearest to sum / count, halves away from zero; none where there is nothing to average.
pub fn nearest(sum: i32, count: u32) -> Option<i32>
    ensures value { result ≡ mean_of sum count }
    ensures law { Averaged sum count result }
{
    if count == 0 {
        return None;
    }
    let size = half_up(u64::from(sum.unsigned_abs()), u64::from(count)) as i64;
    let mean = if sum < 0 { -size } else { size };
    Some(mean as i32)
}
