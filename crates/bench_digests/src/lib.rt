// The hashes under C's names, for the benchmark to link.
#![tactic(auto)]

mod exported_blake2s;
mod exported_sha256;
mod writing;

pub use exported_blake2s::rattle_blake2s;
pub use exported_sha256::rattle_sha256;
