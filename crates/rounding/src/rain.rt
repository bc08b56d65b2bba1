// A month's rain as a code of four digits.
ghost use Rattle.std.specs.Prelude.{◌≡◌};
ghost use Rattle.rounding.specs.Rain.{is_below_one_millimetre, rain_code, Coded};

use crate::halves::half_up;

const ONE_MILLIMETRE: u32 = 10;

// The code for rain that does not reach one millimetre.
const BELOW_ONE_MILLIMETRE: u16 = 9999;

// The code for all that is nearest to 8899 millimetres or more.
const MOST_CODED: u16 = 8899;

// The least amount with that code, in tenths.
const FIRST_OF_MOST: u32 = 88985;

// Whole millimetres, halves up, with a code of its own for less than one millimetre.
pub fn rain_code(tenths: u32) -> u16
    ensures value { result ≡ rain_code tenths }
    ensures law { Coded tenths result }
{
    if is_below_one_millimetre(tenths) {
        return BELOW_ONE_MILLIMETRE;
    }
    if tenths >= FIRST_OF_MOST {
        return MOST_CODED;
    }
    half_up(u64::from(tenths), u64::from(ONE_MILLIMETRE)) as u16
}

fn is_below_one_millimetre(tenths: u32) -> bool
    ensures { result ≡ is_below_one_millimetre tenths }
{
    (1..ONE_MILLIMETRE).contains(&tenths)
}
