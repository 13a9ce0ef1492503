//! The strings of a proof, read as borrowed parts of its bytes.
#![tactic(auto)]

mod digest_lookup;
mod fault;
mod reader;
mod round_trips;
mod view;

pub use digest_lookup::{DigestPlace, looked_for};
pub use fault::ReaderFault;
pub use reader::Reader;
pub use round_trips::{
    digests_stand_in_the_proof, read_is_written_back, read_strings_are_hashed, written_is_read_back,
};
pub use view::NodeView;
