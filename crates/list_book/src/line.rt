// A line of a list book: a pair and its value.
ghost use Rattle.std.specs.Prelude.{◌≡◌, pos};
ghost use Rattle.station.specs.Elements.{element_number};

use crate::key::PairKey;
use daybook::pair::Pair;
use ordered_table::row::Row;

pub type Line = Row<PairKey, i32>;

// A line to fill memory with before it is lent; a book does not read it before it has written it.
pub fn blank_line() -> Line
    ensures day { result.key.pair.day ≡ 1 }
    ensures element { element_number result.key.pair.element ≡ 1 }
    ensures value { result.entry ≡ pos 0 }
{
    Row {
        key: PairKey {
            pair: Pair::first(),
        },
        entry: 0,
    }
}
