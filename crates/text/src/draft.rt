// A report while it is being written.
ghost use Rattle.std.specs.Prelude.{◌≤◌, length};

use arrayvec::ArrayVec;

// No report is longer.
pub(crate) const CAPACITY: usize = 281;

#[derive(Drop)]
pub struct Draft {
    pub(crate) bytes: ArrayVec<u8, CAPACITY>,
    ghost within: { length bytes.items ≤ 281 },
}
