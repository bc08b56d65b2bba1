// Keys go by station, then month.
ghost use Rattle.normals.specs.Order.{key_below};
ghost use Rattle.normals.specs.OnKeys.{not_below_itself, below_chain, neither_below, key_compares, key_apart};

use crate::key::StationMonth;
use ordered_table::key::{ComparedKey, Key};

impl Key for StationMonth {
    ghost below = { key_below };

    ghost itself = { not_below_itself };

    ghost chain = { below_chain };

    ghost apart = { neither_below };

    fn before(&self, other: &StationMonth) -> bool {
        let station = self.station();
        let other_station = other.station();
        station < other_station || (station == other_station && self.month() < other.month())
    }
}

impl ComparedKey for StationMonth {
    ghost compares = { key_compares };

    ghost one_key = { key_apart };
}
