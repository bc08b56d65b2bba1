// Writing into a draft. What does not fit is left out.
ghost use Rattle.std.specs.Prelude.{◌≡◌, [], ◌∷◌, ◌++◌, length};
ghost use Rattle.text.specs.Digits.{digits, bars};
ghost use Rattle.text.specs.Drafts.{kept, text_of, WritingLaw};

use crate::draft::Draft;
use crate::symbol::{BAR, digit_at};
use arrayvec::ArrayVec;

impl Draft {
    pub fn new() -> Draft
        ensures text { text_of result ≡ [] }
        ensures law { WritingLaw }
    {
        Draft {
            bytes: ArrayVec::new(),
        }
    }

    pub fn push(&mut self, byte: u8)
        ensures { text_of self.new ≡ kept (text_of self.old ++ byte ∷ []) }
    {
        let _ = self.bytes.try_push(byte);
    }

    pub fn push_all(&mut self, bytes: &[u8])
        ensures { text_of self.new ≡ kept (text_of self.old ++ bytes.now) }
    {
        for byte in bytes {
            self.push(*byte);
        }
    }

    // The last digits of the number, as many as the width, with noughts where it has fewer.
    pub fn put_digits(&mut self, width: u8, number: u32)
        ensures { text_of self.new ≡ kept (text_of self.old ++ digits width number) }
    {
        for place in (0..width).rev() {
            self.push(digit_at(number, place));
        }
    }

    pub fn put_bars(&mut self, width: u8)
        ensures { text_of self.new ≡ kept (text_of self.old ++ bars width) }
    {
        for _ in 0..width {
            self.push(BAR);
        }
    }

    pub fn len(&self) -> usize
        ensures { result ≡ length (text_of self.now) }
    {
        self.bytes.len()
    }

    pub fn as_bytes(&self) -> &[u8]
        ensures { result.now ≡ text_of self.now }
    {
        self.bytes.as_slice()
    }
}
