// The calls of a list book.
ghost use Rattle.std.specs.Prelude.{◌≡◌, ◌++◌, length, drop};
ghost use Rattle.station.specs.Refusals.{unless};
ghost use Rattle.daybook.specs.Grid.{empty_grid};
ghost use Rattle.daybook.specs.Calls.{enter_refusal, strike_refusal, entered, struck};
ghost use Rattle.ordered_table.specs.Rows.{rows_where};
ghost use Rattle.list_book.specs.Pairs.{is_pair};
ghost use Rattle.list_book.specs.Book.{filled_rows, book_lines, book_grid, book_ceiling};

use crate::book::ListBook;
use crate::key::PairKey;
use crate::line::Line;
use daybook::pair::Pair;
use daybook::source::{DaySource, Daybook};
use ordered_table::table::Table;
use station::refusal::Refusal;

const PAIRS: usize = 372;

impl<'a> ListBook<'a> {
    // An empty book; the lines may hold anything and stay as they are.
    pub fn new(lines: &'a mut [Line]) -> ListBook<'a>
        ensures grid { book_grid result ≡ empty_grid }
        ensures lines { book_lines result ≡ lines.old }
        ensures lender { result.table.lines.ghost_name ≡ lines.entry.ghost_name }
    {
        ListBook {
            table: Table::new(lines),
        }
    }
}

impl<'a> DaySource for ListBook<'a> {
    ghost grid = { book_grid };

    ghost valid = { λ b. b.valid };

    fn look_up(&self, day: i32, element: i32) -> Result<Option<i32>, Refusal> {
        let pair = Pair::check(day, element)?;
        Ok(self.table.find(PairKey { pair }))
    }
}

impl<'a> Daybook for ListBook<'a> {
    ghost limit = { book_ceiling };

    fn ceiling(&self) -> usize {
        self.table.room().min(PAIRS)
    }

    // The lines behind the rows are as they were. Fewer pairs are filled than there are as long as one is empty, so that more
    // lines than pairs need no test of their own.
    fn enter(&mut self, day: i32, element: i32, value: i32) -> Result<(), Refusal>
        ensures answer { result ≡ unless (enter_refusal (book_grid self.old) (book_ceiling self.old) day element value) tt }
        ensures after { book_grid self.new ≡ entered (book_grid self.old) (book_ceiling self.old) day element value }
        ensures ceiling { book_ceiling self.new ≡ book_ceiling self.old }
        ensures lines { book_lines self.new ≡ filled_rows self.new ++ drop (length (filled_rows self.new)) (book_lines self.old) }
        ensures lender { self.new.table.lines.ghost_name ≡ self.old.table.lines.ghost_name }
    {
        let pair = Pair::check(day, element)?;
        pair.check_value(value)?;
        self.table
            .put(PairKey { pair }, value)
            .map_err(|_| Refusal::Full)
    }

    // The row taken out is left on the line that becomes free; the lines behind it are as they were.
    fn strike(&mut self, day: i32, element: i32) -> Result<(), Refusal>
        ensures answer { result ≡ unless (strike_refusal (book_grid self.old) day element) tt }
        ensures after { book_grid self.new ≡ struck (book_grid self.old) day element }
        ensures ceiling { book_ceiling self.new ≡ book_ceiling self.old }
        ensures lines { book_lines self.new ≡ filled_rows self.new ++ (rows_where (is_pair day element) (filled_rows self.old) ++ drop (length (filled_rows self.old)) (book_lines self.old)) }
        ensures lender { self.new.table.lines.ghost_name ≡ self.old.table.lines.ghost_name }
    {
        let pair = Pair::check(day, element)?;
        self.table.remove(PairKey { pair }).ok_or(Refusal::Empty)?;
        Ok(())
    }
}
