//! What whoever has a sheet can do, however it was written: prove and cross-check.
#![tactic(auto)]

mod asked;
mod comparing;
mod proving;
mod rest;
mod waiting;
mod ways;

pub use comparing::cross_check;
pub use proving::prove;
