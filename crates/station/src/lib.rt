// What every crate here speaks of: refusals, the twelve elements, Gregorian months and the checked station sheet.
#![tactic(auto)]

pub mod calendar;
pub mod element;
pub mod refusal;
pub mod sheet;
pub mod wind;
