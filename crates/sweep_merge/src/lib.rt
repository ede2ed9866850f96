// Two vertices of equal or inverse functions: one finds the other, and they merge.
#![tactic(auto)]

pub mod merge;
pub mod twin;
