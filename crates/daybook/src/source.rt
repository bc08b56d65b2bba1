// Day sources, which are looked up, and daybooks, which also take entries and strikes.
ghost use Rattle.std.specs.Prelude.{◌≡◌, ℕ};
ghost use Rattle.station.specs.Refusals.{unless};
ghost use Rattle.daybook.specs.Grid.{Grid, Valid};
ghost use Rattle.daybook.specs.Calls.{looked_up, enter_refusal, strike_refusal, entered, struck};

use station::refusal::Refusal;

// A source of a station's daily values. Its meaning is a grid: at each pair of a day from 1 to 31 and an element a value of
// the element's range, or nothing.
pub trait DaySource {
    ghost grid: { Self → Grid };

    fn look_up(&self, day: i32, element: i32) -> Result<Option<i32>, Refusal>
        ensures answer { result ≡ looked_up (Self.grid self.now) day element }
        ensures same { self.exit.now ≡ self.entry.now };

    ghost valid: { (s : Self) → Valid (grid s) };
}

// A day source that takes entries and strikes, as long as no more pairs are filled than its ceiling, which never changes.
pub trait Daybook: DaySource {
    ghost limit: { Self → ℕ };

    fn ceiling(&self) -> usize
        ensures answer { result ≡ Self.limit self.now }
        ensures same { self.exit.now ≡ self.entry.now };

    // Sets one pair to a value.
    fn enter(&mut self, day: i32, element: i32, value: i32) -> Result<(), Refusal>
        ensures answer { result ≡ unless (enter_refusal (Self.grid self.old) (Self.limit self.old) day element value) tt }
        ensures after { Self.grid self.new ≡ entered (Self.grid self.old) (Self.limit self.old) day element value }
        ensures ceiling { Self.limit self.new ≡ Self.limit self.old };

    // Empties one pair.
    fn strike(&mut self, day: i32, element: i32) -> Result<(), Refusal>
        ensures answer { result ≡ unless (strike_refusal (Self.grid self.old) day element) tt }
        ensures after { Self.grid self.new ≡ struck (Self.grid self.old) day element }
        ensures ceiling { Self.limit self.new ≡ Self.limit self.old };
}
