// Drawing files: a whole file checked (tests 2 to 6 and 18).
#![tactic(auto)]

pub mod check;

pub use netlist_model::{MAX_BYTES, Rejected, Role, Summary};
