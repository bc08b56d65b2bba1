// The symbols of a field: decimal digits and bars.
ghost use Rattle.std.specs.Prelude.{◌≡◌, ◌-◌, Some, None, if◌then◌else◌};
ghost use Rattle.text.specs.Digits.{nought, digit_at, is_digit};

pub(crate) const BASE: u32 = 10;

const NOUGHT: u8 = b'0';

pub(crate) const BAR: u8 = b'/';

// The byte of the number's digit at a place, counted from the last. Dividing place by place needs no power of ten,
// which would not fit at a high place.
pub(crate) fn digit_at(number: u32, place: u8) -> u8
    ensures { result ≡ digit_at number place }
{
    let mut front = number;
    for _ in 0..place {
        front /= BASE;
    }
    NOUGHT + (front % BASE) as u8
}

// What a digit counts.
pub(crate) fn digit(byte: u8) -> Option<u32>
    ensures { result ≡ (if is_digit byte then Some (byte - nought) else None) }
{
    byte.is_ascii_digit().then(|| u32::from(byte - NOUGHT))
}
