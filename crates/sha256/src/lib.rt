// SHA-256 as FIPS 180-4 defines it.
#![tactic(auto)]

mod blocks;
mod compression;
mod constants;
mod functions;
mod hash;
mod last;
mod message;
mod output;
mod parts;
mod round;
mod schedule;
mod state;
mod vectors;
mod words;

pub use state::Sha256;
pub use vectors::{abc_has_its_published_digest, the_empty_message_has_its_published_digest};
