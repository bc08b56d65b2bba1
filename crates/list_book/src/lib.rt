// The list book: a daybook that keeps the filled pairs in order, on lines that are lent to it.
#![tactic(auto)]

pub mod book;
pub mod calls;
pub mod key;
pub mod line;
