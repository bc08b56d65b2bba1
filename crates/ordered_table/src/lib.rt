// A table kept in order of its keys, over lines that the caller lends: one text for every key with a total order and every entry.
#![tactic(auto)]

pub mod key;
pub mod row;
pub mod seek;
pub mod shift;
pub mod table;
