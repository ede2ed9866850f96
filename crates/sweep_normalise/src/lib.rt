// One pass over the working graph: its rows are normalised.
#![tactic(auto)]

pub mod normalise;
