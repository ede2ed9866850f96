// The lines of a drawing file and their records.
#![tactic(auto)]

pub mod lines;
pub mod records;
