// Readings that have a ranking.
ghost use Rattle.std.specs.Prelude.{◌≡◌, Bool, true, false};

// A total ranking. Readings neither of which outranks the other rank equal, and may still differ.
pub trait Ranked: Copy {
    // whether the first outranks the second
    ghost over: { Self → Self → Bool };

    fn outranks(self, other: Self) -> bool
        ensures { result ≡ over self other };

    ghost one_way: { (x y : Self) → over x y ≡ true → over y x ≡ false };

    ghost chain: { (x y z : Self) → over x y ≡ false → over y z ≡ false → over x z ≡ false };
}
