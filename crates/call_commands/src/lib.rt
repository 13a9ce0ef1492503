//! The commands that make the calls of office, mirror and handheld.
#![tactic(auto)]

mod append;
pub mod command;
pub mod read;
pub mod write;
