//! The commands that carry bytes in hex, and the lines that answer them.
#![tactic(auto)]

pub mod command;
pub mod promises;
pub mod read;
pub mod write;
