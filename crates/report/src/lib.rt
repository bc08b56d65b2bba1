// The coded report: its fields, which are always lawful, and its text.
#![tactic(auto)]

pub mod report;
pub mod write;
