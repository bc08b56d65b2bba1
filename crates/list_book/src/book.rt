// The list book: its lines, of which the first hold the filled pairs in order.
ghost use Rattle.daybook.specs.Grid.{Valid};
ghost use Rattle.ordered_table.specs.Contents.{rows};
ghost use Rattle.list_book.specs.Pairs.{grid_of};

use crate::key::PairKey;
use ordered_table::table::Table;

#[derive(Drop)]
pub struct ListBook<'a> {
    pub(crate) table: Table<'a, PairKey, i32>,
    ghost valid: { Valid (grid_of (rows table)) },
}
