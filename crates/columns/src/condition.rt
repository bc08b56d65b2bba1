// A condition that a day's value meets or not.
ghost use Rattle.std.specs.Prelude.{◌≡◌, Bool, ℤ};

pub trait Condition: Copy {
    ghost passes: { Self → ℤ → Bool };

    fn is_met(&self, value: i32) -> bool
        ensures { result ≡ passes self.now value };
}
