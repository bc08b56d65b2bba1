// The kinds of reading that have an extreme, each with its ranking, which is that of its order. The numbers are in the units of their elements.
ghost use Rattle.std.proofs.Common.{rules};
ghost use Rattle.std.specs.Cmp.{partial_order_from_own_ties};
ghost use Rattle.std.specs.Cmp.Rules.{comparing};
ghost use Rattle.std.specs.Ordering.{int_cmp, on, flip_args, as_partial_cmp};
ghost use Rattle.std.specs.Prelude.{◌≡◌, ℤ};
ghost use Rattle.extremes.specs.Kinds.{warmer, colder, rainier, windier, as_high, as_low, as_rain, as_wind};
ghost use Rattle.extremes.specs.Rankings.{below_one_way, not_below_chain};

use crate::ranked::Ranked;
use station::wind::WindIndicator;
use std::cmp::Ordering;

// A temperature of which the highest is sought.
#[derive(Clone, Copy, PartialEq, Eq, PartialOrd, Ord)]
pub struct HighTemperature(pub i32);

impl Ranked for HighTemperature {
    ghost over = { warmer };

    ghost one_way = { λ x y. below_one_way y.0 x.0 };

    ghost chain = { λ x y z h i. not_below_chain z.0 y.0 x.0 i h };

    fn outranks(self, high: HighTemperature) -> bool {
        self > high
    }
}

// A temperature of which the lowest is sought: in this order the lower is the greater.
#[derive(Clone, Copy, PartialEq, Eq)]
pub struct LowTemperature(pub i32);

impl Ord for LowTemperature {
    ghost cmp = { flip_args (on (λ t. t.0) int_cmp) };

    ghost total = { Prim.search (comparing, rules) };

    ghost matches_partial_cmp = { Prim.search (comparing, rules) };

    ghost matches_eq = { Prim.search (comparing, rules) };

    fn cmp(&self, other: &LowTemperature) -> Ordering {
        other.0.cmp(&self.0)
    }
}

impl PartialOrd for LowTemperature {
    ghost partial_cmp = { as_partial_cmp (flip_args (on (λ t. t.0) int_cmp)) };

    ghost laws = { partial_order_from_own_ties (Prim.search (comparing, rules)) (Prim.search (comparing, rules)) };

    fn partial_cmp(&self, other: &LowTemperature) -> Option<Ordering> {
        Some(self.cmp(other))
    }
}

impl Ranked for LowTemperature {
    ghost over = { colder };

    ghost one_way = { λ x y. below_one_way x.0 y.0 };

    ghost chain = { λ x y z. not_below_chain x.0 y.0 z.0 };

    fn outranks(self, low: LowTemperature) -> bool {
        self > low
    }
}

// The rain of a day.
#[derive(Clone, Copy, PartialEq, Eq, PartialOrd, Ord)]
pub struct RainDepth(pub i32);

impl Ranked for RainDepth {
    ghost over = { rainier };

    ghost one_way = { λ x y. below_one_way y.0 x.0 };

    ghost chain = { λ x y z h i. not_below_chain z.0 y.0 x.0 i h };

    fn outranks(self, rain: RainDepth) -> bool {
        self > rain
    }
}

// The wind of a day. How it was observed does not bear on its rank, so that winds of one speed compare as equal.
#[derive_where(Clone, Copy, PartialEq, Eq, PartialOrd, Ord)]
pub struct WindSpeed {
    pub speed: i32,
    #[derive_where(skip(EqHashOrd))]
    pub indicator: WindIndicator,
}

impl Ranked for WindSpeed {
    ghost over = { windier };

    ghost one_way = { λ x y. below_one_way y.speed x.speed };

    ghost chain = { λ x y z h i. not_below_chain z.speed y.speed x.speed i h };

    fn outranks(self, wind: WindSpeed) -> bool {
        self > wind
    }
}

// What the values of an element are read as.
pub trait Kind: Copy {
    type Reading: Ranked;

    ghost reads: { Self → ℤ → Self.Reading };

    fn read(&self, value: i32) -> Self::Reading
        ensures { result ≡ reads self.now value };
}

// Values read as temperatures of which the highest is sought.
#[derive(Clone, Copy)]
pub struct HighTemperatures;

impl Kind for HighTemperatures {
    type Reading = HighTemperature;

    ghost reads = { λ _. as_high };

    fn read(&self, value: i32) -> HighTemperature {
        HighTemperature(value)
    }
}

// Values read as temperatures of which the lowest is sought.
#[derive(Clone, Copy)]
pub struct LowTemperatures;

impl Kind for LowTemperatures {
    type Reading = LowTemperature;

    ghost reads = { λ _. as_low };

    fn read(&self, value: i32) -> LowTemperature {
        LowTemperature(value)
    }
}

// Values read as the rain of a day.
#[derive(Clone, Copy)]
pub struct RainDepths;

impl Kind for RainDepths {
    type Reading = RainDepth;

    ghost reads = { λ _. as_rain };

    fn read(&self, value: i32) -> RainDepth {
        RainDepth(value)
    }
}

// Values read as the wind of a day, observed as the indicator says.
impl Kind for WindIndicator {
    type Reading = WindSpeed;

    ghost reads = { as_wind };

    fn read(&self, value: i32) -> WindSpeed {
        WindSpeed {
            speed: value,
            indicator: *self,
        }
    }
}
