// One pass over the working graph: what newly merged vertices hand over.
#![tactic(auto)]

pub mod take;
