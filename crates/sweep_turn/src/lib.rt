// The turns of a sweep: visits, scans, and the vertex that opens.
#![tactic(auto)]

pub mod scan;
pub mod turn;
pub mod visit;
