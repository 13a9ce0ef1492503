//! Zones: the register of boundary edges, and the zone of a point by looking at every record in turn.
#![tactic(auto)]

pub mod promises;
pub mod register;
