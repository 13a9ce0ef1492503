//! The fault of a check: what each layer reports, carried up whole into one report.
#![tactic(auto)]

mod conversions;
mod layers;
mod report;
mod stamps;

pub use layers::{AnswerFault, HashFault, Layer, SearchFault};
pub use report::{Cause, Fault, each_layer_has_its_numbers};
pub use stamps::{AtStep, AtString, at_step, at_string};
