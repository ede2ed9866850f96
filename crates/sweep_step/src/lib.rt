// A step of a sweep: one vertex has its product taken.
#![tactic(auto)]

pub mod meet;
pub mod multiply;
pub mod settle;
