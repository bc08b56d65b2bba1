// The bytes of a report: decimal numbers of a fixed width, bars over a whole field, and the draft that they are
// written into.
#![tactic(auto)]

pub mod draft;
pub mod number;
mod symbol;
mod writing;
