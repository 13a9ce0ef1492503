//! What is done with lent slices, proved once for every element.
#![tactic(auto)]

mod filling;
mod insertion;
mod ordered;
mod removal;
mod run;
mod sorting;
mod stack;

pub use filling::fill_rest;
pub use insertion::{Full, insert};
pub use ordered::Ordered;
pub use removal::{NoSuchPlace, remove};
pub use run::Run;
pub use sorting::sort;
pub use stack::Stack;
