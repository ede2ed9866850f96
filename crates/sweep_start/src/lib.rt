// The start of a sweep: normalising, the first look and the rows of the inputs.
#![tactic(auto)]

pub mod inputs;
pub mod start;
