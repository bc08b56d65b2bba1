// The values of one element over the days of a month: sums, and counts of days.
#![tactic(auto)]

pub mod condition;
pub mod count;
pub mod limit;
pub mod month;
pub mod phenomenon;
pub mod sums;
pub mod table;
pub mod tally;
