//! What the calls of office, mirror and handheld answer, and that the definitions of their outcomes mean what the rules say.
#![tactic(auto)]

pub mod drawn;
pub mod outcomes;
pub mod promises;
