// Where a key stands among rows in rising order, or where it would.
ghost use Rattle.std.specs.Prelude.{◌≡◌, ◌<◌, ◌≤◌, true, length, drop, MatchResult};
ghost use Rattle.ordered_table.specs.Rows.{sought, not_below};
ghost use Rattle.ordered_table.specs.Order.{rising};

use crate::key::Key;
use crate::row::Row;

// The key stands, or would, behind no more than so many rows. They are few where its place is low, however many rows there are.
fn reach<K: Key, E>(rows: &[Row<K, E>], key: K) -> usize
    ensures within { result ≤ length rows.now }
    ensures enough { not_below K.below key (drop result rows.now) ≡ true }
{
    let mut count: usize = 0;
    while count < rows.len() && rows[count].key.before(&key) {
        count = count.saturating_mul(2).saturating_add(1);
    }
    count.min(rows.len())
}

pub(crate) fn seek<K: Key, E>(rows: &[Row<K, E>], key: K) -> Result<usize, usize>
    requires { rising K.below rows.now ≡ true }
    ensures is { result ≡ sought K.below key rows.now }
    ensures inside { MatchResult result (λ i. i < length rows.now) (λ i. i ≤ length rows.now) }
{
    let near = &rows[..reach(rows, key)];
    let place = near.partition_point(|row| row.key.before(&key));
    if place < rows.len() && !key.before(&rows[place].key) {
        Ok(place)
    } else {
        Err(place)
    }
}
