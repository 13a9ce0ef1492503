// BLAKE2s-256 without a key, as RFC 7693 defines it.
#![tactic(auto)]

mod blocks;
mod compression;
mod constants;
mod hash;
mod last;
mod message;
mod mixing;
mod output;
mod parts;
mod places;
mod rounds;
mod state;
mod vectors;

pub use state::Blake2s;
pub use vectors::{abc_has_its_published_digest, the_empty_message_has_its_published_digest};
