// The layout of the four sections of a report.
ghost use Rattle.std.specs.Prelude.{◌≡◌};
ghost use Rattle.layout.specs.Tables.{groups_of, rows_of, number_of};

use crate::row::{Group, Kind, Row, Tie};
use crate::section::Section;

// A group: its digit, the number of its fields, whether it is never left out, and whether it is left out where all its fields are nought.
macro_rules! group {
    ($digit:literal, $count:literal, $required:literal, $noughts:literal) => {
        Group {
            digit: $digit,
            count: $count,
            required: $required,
            noughts: $noughts,
        }
    };
}

// A field: its kind, its width in bytes, its limits, whether it may be barred, and its tie to the fields before it.
macro_rules! row {
    ($kind:ident, $width:literal, $low:literal, $high:literal, $bar:literal, $tie:ident) => {
        Row {
            kind: Kind::$kind,
            width: $width,
            low: $low,
            high: $high,
            bar: $bar,
            tie: Tie::$tie,
        }
    };
}

const FIRST_GROUPS: [Group; 9] = [
    group!(1, 1, false, false),
    group!(2, 1, false, false),
    group!(3, 2, false, false),
    group!(4, 2, false, false),
    group!(5, 1, false, false),
    group!(6, 3, false, false),
    group!(7, 2, false, false),
    group!(8, 4, true, false),
    group!(9, 3, true, false),
];

const FIRST_ROWS: [Row; 19] = [
    // group 1: P0
    row!(Pressure, 4, 4000, 10999, true, Free),
    // group 2: P
    row!(Pressure, 4, 8500, 10999, true, Free),
    // group 3: T, st
    row!(Temperature, 4, 900, 600, true, Free),
    row!(Number, 3, 0, 999, true, Together),
    // group 4: TX, TN
    row!(Temperature, 4, 900, 600, true, Free),
    row!(Temperature, 4, 900, 600, true, Free),
    // group 5: e
    row!(Number, 3, 0, 999, true, Free),
    // group 6: R1, Rd, nr
    row!(Rain, 4, 0, 9999, true, Free),
    row!(Number, 1, 0, 6, true, Under),
    row!(Days, 2, 0, 31, true, Together),
    // group 7: S1, ps
    row!(Number, 3, 0, 744, true, Free),
    row!(Number, 3, 0, 999, true, Under),
    // group 8: mP, mT, mTx, mTn
    row!(Days, 2, 0, 31, false, Free),
    row!(Days, 2, 0, 31, false, Free),
    row!(Number, 1, 0, 9, false, Free),
    row!(Number, 1, 0, 9, false, Free),
    // group 9: me, mR, mS
    row!(Days, 2, 0, 31, false, Free),
    row!(Days, 2, 0, 31, false, Free),
    row!(Days, 2, 0, 31, false, Free),
];

const SECOND_GROUPS: [Group; 10] = [
    group!(0, 2, true, false),
    group!(1, 1, false, false),
    group!(2, 1, false, false),
    group!(3, 2, false, false),
    group!(4, 2, false, false),
    group!(5, 1, false, false),
    group!(6, 2, false, false),
    group!(7, 1, false, false),
    group!(8, 3, true, false),
    group!(9, 3, true, false),
];

const SECOND_ROWS: [Row; 18] = [
    // group 0: Yb, Yc
    row!(Number, 2, 0, 99, false, Free),
    row!(Number, 2, 0, 99, false, Free),
    // group 1: P0
    row!(Pressure, 4, 1000, 10999, true, Free),
    // group 2: P
    row!(Pressure, 4, 1000, 10999, true, Free),
    // group 3: T, st
    row!(Temperature, 4, 999, 999, true, Free),
    row!(Number, 3, 0, 999, true, Free),
    // group 4: TX, TN
    row!(Temperature, 4, 999, 999, true, Free),
    row!(Temperature, 4, 999, 999, true, Free),
    // group 5: e
    row!(Number, 3, 0, 999, true, Free),
    // group 6: R1, nr
    row!(Rain, 4, 0, 9999, true, Free),
    row!(Number, 2, 0, 31, true, Dry),
    // group 7: S1
    row!(Number, 3, 0, 744, true, Free),
    // group 8: yP, yT, yTx
    row!(Number, 2, 0, 99, false, Free),
    row!(Number, 2, 0, 99, false, Free),
    row!(Number, 2, 0, 99, false, Free),
    // group 9: ye, yR, yS
    row!(Number, 2, 0, 99, false, Free),
    row!(Number, 2, 0, 99, false, Free),
    row!(Number, 2, 0, 99, false, Free),
];

const THIRD_GROUPS: [Group; 10] = [
    group!(0, 2, false, true),
    group!(1, 2, false, true),
    group!(2, 2, false, true),
    group!(3, 2, false, true),
    group!(4, 2, false, true),
    group!(5, 2, false, true),
    group!(6, 2, false, true),
    group!(7, 2, false, true),
    group!(8, 3, false, true),
    group!(9, 3, false, true),
];

const THIRD_ROWS: [Row; 22] = [
    // group 0: T25, T30
    row!(Days, 2, 0, 31, true, Free),
    row!(Days, 2, 0, 31, true, Together),
    // group 1: T35, T40
    row!(Days, 2, 0, 31, true, Free),
    row!(Days, 2, 0, 31, true, Together),
    // group 2: Tn0, Tx0
    row!(Days, 2, 0, 31, true, Free),
    row!(Days, 2, 0, 31, true, Free),
    // group 3: R01, R05
    row!(Days, 2, 0, 31, true, Free),
    row!(Days, 2, 0, 31, true, Together),
    // group 4: R10, R50
    row!(Days, 2, 0, 31, true, Free),
    row!(Days, 2, 0, 31, true, Together),
    // group 5: R100, R150
    row!(Days, 2, 0, 31, true, Free),
    row!(Days, 2, 0, 31, true, Together),
    // group 6: s00, s01
    row!(Days, 2, 0, 31, true, Free),
    row!(Days, 2, 0, 31, true, Together),
    // group 7: s10, s50
    row!(Days, 2, 0, 31, true, Free),
    row!(Days, 2, 0, 31, true, Together),
    // group 8: f10, f20, f30
    row!(Days, 2, 0, 31, true, Free),
    row!(Days, 2, 0, 31, true, Together),
    row!(Days, 2, 0, 31, true, Together),
    // group 9: V1, V2, V3
    row!(Days, 2, 0, 31, true, Free),
    row!(Days, 2, 0, 31, true, Together),
    row!(Days, 2, 0, 31, true, Together),
];

const FOURTH_GROUPS: [Group; 7] = [
    group!(0, 2, false, false),
    group!(1, 2, false, false),
    group!(2, 2, false, false),
    group!(3, 2, false, false),
    group!(4, 2, false, false),
    group!(5, 3, false, false),
    group!(6, 2, false, false),
];

const FOURTH_ROWS: [Row; 15] = [
    // group 0: T highest, day
    row!(Temperature, 4, 900, 600, true, Free),
    row!(DayCode, 2, 1, 80, true, Together),
    // group 1: T lowest, day
    row!(Temperature, 4, 900, 600, true, Free),
    row!(DayCode, 2, 1, 80, true, Together),
    // group 2: TX highest, day
    row!(Temperature, 4, 900, 600, true, Free),
    row!(DayCode, 2, 1, 80, true, Together),
    // group 3: TN lowest, day
    row!(Temperature, 4, 900, 600, true, Free),
    row!(DayCode, 2, 1, 80, true, Together),
    // group 4: R greatest, day
    row!(Number, 4, 0, 9999, true, Free),
    row!(DayCode, 2, 1, 80, true, Together),
    // group 5: iw, fx, day
    row!(Number, 1, 0, 1, true, Free),
    row!(Number, 3, 0, 999, true, Together),
    row!(DayCode, 2, 1, 80, true, Together),
    // group 6: Dts, Dgr
    row!(Days, 2, 0, 31, true, Free),
    row!(Days, 2, 0, 31, true, Together),
];

impl Section {
    // The groups of the section, in their order.
    pub fn groups(self) -> &'static [Group]
        ensures { result.now ≡ groups_of self }
    {
        match self {
            Section::First => &FIRST_GROUPS,
            Section::Second => &SECOND_GROUPS,
            Section::Third => &THIRD_GROUPS,
            Section::Fourth => &FOURTH_GROUPS,
        }
    }

    // The fields of the section's groups, one after the other.
    pub fn rows(self) -> &'static [Row]
        ensures { result.now ≡ rows_of self }
    {
        match self {
            Section::First => &FIRST_ROWS,
            Section::Second => &SECOND_ROWS,
            Section::Third => &THIRD_ROWS,
            Section::Fourth => &FOURTH_ROWS,
        }
    }

    // The number with which the section begins.
    pub fn number(self) -> &'static [u8]
        ensures { result.now ≡ number_of self }
    {
        match self {
            Section::First => b"111",
            Section::Second => b"222",
            Section::Third => b"333",
            Section::Fourth => b"444",
        }
    }
}
