//! Records and questions as a caller hands them over, the ranges that held values keep to,
//! and the list of records that a register holds.
#![tactic(auto)]

pub mod coordinate;
pub mod numbered;
pub mod position;
pub mod range;
pub mod raw;
pub mod record_number;
pub mod zone;
