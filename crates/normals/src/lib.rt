// Climate normals: the record of a station and month, its check, and a register of such records over lines that the caller lends.
#![tactic(auto)]

pub mod checked;
pub mod key;
pub mod order;
pub mod record;
pub mod register;
