//! The zone chart: edges judged, and their figure drawn into a sheet.
#![tactic(auto)]

mod bounds;
pub mod chart;
mod drawing;
pub mod drawn;
mod fitness;
mod halves;
mod judging;
mod nodes;
mod runs;
mod slab;
