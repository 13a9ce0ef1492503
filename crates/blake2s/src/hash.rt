// BLAKE2s-256 as a hash.
ghost use Rattle.blake2s.specs.Standard.{blake2s, finished};
ghost use Rattle.std.proofs.Math.Path.{refl};
ghost use Rattle.blake2s.specs.DigestBytes.{joined_bytes};

use crate::message::digest_of;
use crate::state::Blake2s;
use digest::{Hash, check_length};
use refusal::Refusal;

impl Hash for Blake2s {
    ghost digest = { blake2s };

    ghost width = { unfold blake2s in λ message. refl };

    ghost bytes = { unfold blake2s in λ message. joined_bytes (finished message) };

    // The same two lines in both hashes; what differs is the digest of a message that fits.
    fn hash(message: &[u8]) -> Result<[u8; 32], Refusal> {
        check_length(message.len())?;
        Ok(digest_of(message))
    }
}
