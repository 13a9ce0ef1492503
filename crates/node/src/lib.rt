//! Nodes and their strings: kinds and shapes, strings written and read back as XDR, the reader of
//! a proof, and the faults that a check reports.
#![tactic(auto)]

mod encoded;
mod kind;
mod shape;
mod sizes;
mod writing;

pub use kind::{Kind, KindNotKnown, numbers_name_kinds};
pub use shape::Shape;
pub use sizes::{shapes_are_small, strings_are_hashed, strings_are_short};
pub use writing::{NoRoom, NotWritten, put_digest, put_int, put_uint, write_string};
