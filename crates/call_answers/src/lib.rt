//! The calls of office, mirror and handheld, made for a command, and what they print. Sheets, proofs and answers are in memory
//! that is allocated for the command.
#![tactic(auto)]

pub mod publishing;
