// Whether a sweep ends: the two literals looked at.
#![tactic(auto)]

pub mod look;
