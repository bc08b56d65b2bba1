// What a group and a field of a report are like.

// What the digits of a field stand for.
#[derive(Clone, Copy)]
pub enum Kind {
    // a sign, 0 from zero on and 1 below, and three digits
    Temperature,
    // without its thousand from 1000.0 hPa on
    Pressure,
    // a number within the limits
    Number,
    // a number of days of the month
    Days,
    // the code of a month's rain
    Rain,
    // a day of the month, 50 more where the extreme recurs
    DayCode,
}

// How a field depends on the field of its group that leads it, which is the last one before it that is free.
#[derive(Clone, Copy)]
pub enum Tie {
    // not at all
    Free,
    // it is barred exactly with it
    Together,
    // it is barred where that one is
    Under,
    // it is shown as nought where that one is
    Dry,
}

#[derive(Clone, Copy)]
pub struct Row {
    pub kind: Kind,
    // in bytes
    pub width: u8,
    // of a temperature: how far below zero it may be
    pub low: u16,
    pub high: u16,
    // whether it may be barred
    pub bar: bool,
    pub tie: Tie,
}

#[derive(Clone, Copy)]
pub struct Group {
    pub digit: u8,
    // how many fields it has
    pub count: usize,
    // it is never left out
    pub required: bool,
    // it is left out where all its fields are nought
    pub noughts: bool,
}
