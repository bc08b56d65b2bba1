// The key of a line: a pair, in order of day and then of element.
ghost use Rattle.list_book.specs.Pairs.{pair_below, pair_cmp};
ghost use Rattle.list_book.specs.OnPairs.{pair_order, pair_cmp_total, pair_cmp_partial, pair_cmp_equal, pair_cmp_below, pair_cmp_apart};
ghost use Rattle.std.specs.Ordering.{as_partial_cmp};
ghost use Rattle.std.specs.Prelude.{refl};

use daybook::pair::Pair;
use ordered_table::key::{ComparedKey, Key};
use std::cmp::Ordering;

#[derive(Clone, Copy, PartialEq, Eq)]
pub struct PairKey {
    pub pair: Pair,
}

impl PartialOrd for PairKey {
    ghost partial_cmp = { as_partial_cmp pair_cmp };

    ghost laws = { pair_cmp_partial };

    fn partial_cmp(&self, other: &PairKey) -> Option<Ordering> {
        Some(self.cmp(other))
    }
}

impl Ord for PairKey {
    ghost cmp = { pair_cmp };

    ghost total = { pair_cmp_total };

    ghost matches_partial_cmp = { λ x y. refl };

    ghost matches_eq = { pair_cmp_equal };

    fn cmp(&self, other: &PairKey) -> Ordering {
        let element = u8::from(self.pair.element());
        let other_element = u8::from(other.pair.element());
        let day = self.pair.day();
        day.cmp(&other.pair.day()).then(element.cmp(&other_element))
    }
}

impl Key for PairKey {
    ghost below = { pair_below };

    ghost itself = { pair_order.itself };

    ghost chain = { pair_order.chain };

    ghost apart = { pair_order.apart };

    fn before(&self, other: &PairKey) -> bool {
        let day = self.pair.day();
        let element = u8::from(self.pair.element());
        let other_day = other.pair.day();
        let other_element = u8::from(other.pair.element());
        day < other_day || (day == other_day && element < other_element)
    }
}

impl ComparedKey for PairKey {
    ghost compares = { pair_cmp_below };

    ghost one_key = { pair_cmp_apart };
}
