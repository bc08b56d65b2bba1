// Why a call declines. docs/REFUSALS.md has each reason with its number.
ghost use Rattle.std.specs.Prelude.{◌≡◌, Some};
ghost use Rattle.station.specs.Refusals.{refusal_number, refusal_text};

use std::fmt;

#[derive(Clone, Copy, PartialEq, Eq, Debug)]
pub enum Refusal {
    // a station, year, month or wind indicator outside its limits
    Sheet = 1,
    // a normal outside its limits
    Normal = 2,
    // a day outside 1 to 31, or above the month's length
    Day = 3,
    // no element has this number
    Element = 4,
    // a value outside its element's range
    Value = 5,
    // a new key, and the book or register holds as many as it may
    Full = 6,
    // a strike where nothing stands
    Empty = 7,
    // the text does not fit the buffer
    Room = 8,
    // a report of another month or year than the bulletin's
    Month = 9,
    // a line or field of a house file that does not have the form of one
    Malformed = 18,
}

// The number by which a refusal is known.
impl From<Refusal> for u8 {
    ghost from_gives = { λ r n. n ≡ refusal_number r };

    fn from(refusal: Refusal) -> u8 {
        refusal as u8
    }
}

// A refusal is shown by its number.
impl fmt::Display for Refusal {
    ghost output = { λ r. Some (refusal_text r) };

    fn fmt<W: fmt::Write>(&self, f: &mut fmt::Formatter<W>) -> fmt::Result {
        write!(f, "{}", u8::from(*self))
    }
}
