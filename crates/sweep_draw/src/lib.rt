// The product of a vertex's operands is taken; it gets its diagram, or is dropped.
#![tactic(auto)]

pub mod draw;
pub mod drop;
pub mod operands;
