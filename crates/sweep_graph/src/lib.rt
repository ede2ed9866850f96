// The working graph of the sweep, in lent slices of two words a vertex: pairs (its row), the look-up, diagrams (reference and size), stages.
#![tactic(auto)]

pub mod reference;
pub mod resolve;
pub mod stage;
