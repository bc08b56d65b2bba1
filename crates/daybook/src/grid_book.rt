// The grid book: a daybook with a cell for each pair.
ghost use Rattle.std.specs.Prelude.{◌≡◌};
ghost use Rattle.daybook.specs.Grid.{Valid, empty_grid, pair_count};
ghost use Rattle.daybook.specs.Cells.{grid_of};

use crate::pair::Pair;
use crate::source::{DaySource, Daybook};
use station::refusal::Refusal;

const PAIRS: usize = 372;

#[derive(Drop)]
pub struct GridBook {
    cells: [Option<i32>; PAIRS],
    ghost valid: { Valid (grid_of cells) },
}

impl GridBook {
    pub fn new() -> GridBook
        ensures { grid_of result.cells ≡ empty_grid }
    {
        GridBook {
            cells: [None; PAIRS],
        }
    }
}

impl DaySource for GridBook {
    ghost grid = { λ b. grid_of b.cells };

    ghost valid = { λ b. b.valid };

    fn look_up(&self, day: i32, element: i32) -> Result<Option<i32>, Refusal> {
        let pair = Pair::check(day, element)?;
        Ok(self.cells[pair.place()])
    }
}

impl Daybook for GridBook {
    ghost limit = { λ _. pair_count };

    fn ceiling(&self) -> usize {
        PAIRS
    }

    // There is a cell for each pair, so the ceiling never declines an entry.
    fn enter(&mut self, day: i32, element: i32, value: i32) -> Result<(), Refusal> {
        let pair = Pair::check(day, element)?;
        pair.check_value(value)?;
        self.cells[pair.place()] = Some(value);
        Ok(())
    }

    fn strike(&mut self, day: i32, element: i32) -> Result<(), Refusal> {
        let pair = Pair::check(day, element)?;
        let place = pair.place();
        let held = self.cells[place];
        if held.is_none() {
            return Err(Refusal::Empty);
        }
        self.cells[place] = None;
        Ok(())
    }
}
