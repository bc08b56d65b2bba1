// The kinds of figure that a report's fields hold.

// In tenths of a degree.
#[derive(Clone, Copy)]
pub struct Temperature {
    pub tenths: i32,
}

// A number that is written as it is.
#[derive(Clone, Copy)]
pub struct PlainNumber {
    pub number: u32,
}

// A pressure in tenths of a hectopascal.
#[derive(Clone, Copy)]
pub struct Pressure {
    pub tenths: u32,
}

// A month's rain by its code: whole millimetres up to 8898, 8899 for more, and 9999 for less than one millimetre.
#[derive(Clone, Copy)]
pub struct RainAmount {
    pub code: u32,
}

// The first day of an extreme, and whether it recurs.
#[derive(Clone, Copy)]
pub struct DayCode {
    pub day: u8,
    pub recurs: bool,
}
