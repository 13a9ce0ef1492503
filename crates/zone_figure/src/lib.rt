//! The figure of a zone chart: how its nodes are judged, which nodes it has, and that walking it answers every question.
#![tactic(auto)]

pub mod promises;
