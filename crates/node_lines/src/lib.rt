//! The lines that show nodes: the strings that stand in bytes, and the nodes of a figure.
#![tactic(auto)]

mod append;
mod figure_lines;
pub mod figures;
mod next_string;
pub mod promises;
pub mod string_lines;
