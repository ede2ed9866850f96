// What a sweep is asked, what its slices hold and stand for, and how it ends.
#![tactic(auto)]

pub mod end;
pub mod mark;
pub mod sweep;
pub mod task;
