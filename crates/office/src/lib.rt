//! What the office does beside its register: it publishes what is held as a sheet.
#![tactic(auto)]

mod digests;
pub mod publishing;
