// The parts of a list by a count.
ghost use Rattle.std.specs.Prelude.{◌≡◌, take, drop};

// The first of some items, as many as there are up to a count, and those behind them.
pub(crate) fn split<T>(items: &[T], count: usize) -> (&[T], &[T])
    ensures front { result.0.now ≡ take count items.now }
    ensures behind { result.1.now ≡ drop count items.now }
{
    items.split_at(count.min(items.len()))
}
