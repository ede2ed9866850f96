// Reduced ordered decision diagrams in a lent slice: rows, and references to them. The unique table of rows is in `bdd_unique`.
#![tactic(auto)]

pub mod difference;
pub mod references;
pub mod rows;
pub mod store;
