// Division to the nearest whole number.
ghost use Rattle.std.specs.Prelude.{◌≡◌, ◌^◌, ◌<◌};
ghost use Rattle.rounding.specs.Halves.{half_up};

// The whole number nearest to amount / count, halves up, of numbers that can be doubled.
pub(crate) fn half_up(amount: u64, count: u64) -> u64
    requires count_nonzero { 0 < count }
    requires count_bound { count < 2 ^ 32 }
    requires amount_bound { amount < 2 ^ 40 }
    ensures { result ≡ half_up amount count }
{
    (2 * amount + count) / (2 * count)
}
