//! The site chart: sites judged, and their figure drawn into a sheet.
#![tactic(auto)]

mod axes;
pub mod chart;
mod drawing;
pub mod drawn;
mod fit;
mod judging;
mod nodes;
mod orders;
mod rows;
mod sorting;
mod spans;
mod trees;
