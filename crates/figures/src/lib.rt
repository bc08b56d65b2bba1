// The figures of a month, over any day source.
#![tactic(auto)]

pub mod days;
pub mod means;
pub mod totals;
