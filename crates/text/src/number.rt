// What the bytes of a field stand for.
ghost use Rattle.std.specs.Prelude.{◌≡◌};
ghost use Rattle.text.specs.Digits.{number_of, all_bars};
ghost use Rattle.text.specs.Examples.{Examples};
ghost use Rattle.text.specs.Undo.{DigitsUndo, BarsUndo};

use crate::symbol::{BAR, BASE, digit};

// Every number of so many digits fits 32 bits.
const MOST_DIGITS: usize = 9;

// The number that the bytes write, where they are digits, one at least and nine at most.
pub fn number(bytes: &[u8]) -> Option<u32>
    ensures value { result ≡ number_of bytes.now }
    ensures law { DigitsUndo }
    ensures examples { Examples }
{
    if bytes.is_empty() || bytes.len() > MOST_DIGITS {
        return None;
    }
    let mut value = 0;
    for byte in bytes {
        value = value * BASE + digit(*byte)?;
    }
    Some(value)
}

// Whether the bytes are bars, one at least.
pub fn is_bars(bytes: &[u8]) -> bool
    ensures value { result ≡ all_bars bytes.now }
    ensures law { BarsUndo }
{
    !bytes.is_empty() && bytes.iter().all(|byte| *byte == BAR)
}
