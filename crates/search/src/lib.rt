//! The search in a figure: what every chart kind shows, how figures are made and walked, and how they are drawn into a sheet.
#![tactic(auto)]

pub mod chart;
pub mod drafting;
pub mod promises;
pub mod sheet;
pub mod verdict;
