//! The figure of a site chart: how it is judged and drawn by definition, and that walking it answers every rectangle.
#![tactic(auto)]

pub mod promises;
