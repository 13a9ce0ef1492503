//! The command lines of the program, and the lines that it answers with.
#![tactic(auto)]

pub mod append;
pub mod command;
mod names;
mod number;
pub mod promises;
pub mod read;
pub mod reply;
pub mod words;
pub mod write;

pub use names::{hash_named, same};
pub use number::read_number;
