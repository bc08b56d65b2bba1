// Day sources and daybooks: what they mean, runs of calls on them, and the grid book.
#![tactic(auto)]

pub mod call;
pub mod grid_book;
pub mod pair;
pub mod reading;
pub mod run;
pub mod source;
