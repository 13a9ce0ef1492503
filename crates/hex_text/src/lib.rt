//! Bytes as hex text.
#![tactic(auto)]

mod append;
pub mod decode;
pub mod digest;
mod digits;
pub mod encode;
pub mod promises;
