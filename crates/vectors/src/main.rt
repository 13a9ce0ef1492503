// Prints digests of many messages by each hash. What it must print was computed by another implementation
// (tests/make_vectors.py).
#![tactic(auto)]

mod hashes;
mod messages;
mod outcome;
mod parts;
mod whole;

use blake2s::Blake2s;
use sha256::Sha256;
use std::io;

fn main(rt: HostRuntime) -> io::Result<()> {
    whole::published::<Sha256>(rt)?;
    whole::published::<Blake2s>(rt)?;
    whole::every_length::<Sha256>(rt)?;
    whole::every_length::<Blake2s>(rt)?;
    whole::long::<Sha256>(rt)?;
    whole::long::<Blake2s>(rt)?;
    parts::in_parts::<Sha256>(rt)?;
    parts::in_parts::<Blake2s>(rt)
}
