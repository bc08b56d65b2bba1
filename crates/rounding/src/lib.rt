// The arithmetic of a month's figures on plain numbers: means, deviations, and the codes of rain and sunshine.
// Values and totals are in tenths of their unit.
#![tactic(auto)]

pub mod deviation;
mod halves;
pub mod mean;
pub mod rain;
pub mod sunshine;
