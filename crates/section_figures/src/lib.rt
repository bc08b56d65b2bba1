// The figures of each section of a report, as the numbers that their digits write.
#![tactic(auto)]

pub mod second;
pub mod third;
