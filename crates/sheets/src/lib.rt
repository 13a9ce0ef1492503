//! What the records of any sheet show, whoever wrote them: the sound node at a place, and its string.
#![tactic(auto)]

pub mod reading;
pub mod strings;
