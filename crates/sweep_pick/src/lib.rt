// The words that a sweep begins with, and the vertex that opens next.
#![tactic(auto)]

pub mod begin;
pub mod pick;
