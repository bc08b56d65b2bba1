// A month's extremes: the highest or lowest reading of an element, the first day that had it, and whether it recurs.
#![tactic(auto)]

pub mod days;
pub mod kinds;
pub mod month;
pub mod ranked;
pub mod search;
