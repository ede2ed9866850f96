// And-inverter graphs: literals and the folding of an AND. The definitions also say what the look-up of vertices by their pairs answers.
#![tactic(auto)]

pub mod fold;
pub mod literal;
