// The layout of a report: sections, groups and fields, and the text of a section's fields.
#![tactic(auto)]

pub mod coding;
pub mod field;
pub mod figure;
pub mod lay;
pub mod row;
pub mod section;
mod split;
pub mod tables;
pub mod write;
