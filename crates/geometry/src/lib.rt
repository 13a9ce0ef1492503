// Boundary edges: exact heights and slopes, which edges conflict, and the order of edges from below.
#![tactic(auto)]

pub mod crossing;
pub mod edge;
pub mod fraction;
pub mod promises;
