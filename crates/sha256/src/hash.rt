// SHA-256 as a hash.
ghost use Rattle.sha256.specs.Standard.{sha256, after, padded};
ghost use Rattle.std.proofs.Math.Path.{refl};
ghost use Rattle.std.specs.Prelude.{◌/◌, length};
ghost use Rattle.sha256.specs.Constants.{H⁰};
ghost use Rattle.sha256.specs.DigestBytes.{joined_bytes};

use crate::message::digest_of;
use crate::state::Sha256;
use digest::{Hash, check_length};
use refusal::Refusal;

impl Hash for Sha256 {
    ghost digest = { sha256 };

    ghost width = { unfold sha256 in λ message. refl };

    ghost bytes = { unfold sha256 in λ message. joined_bytes (after H⁰ (padded message) (length (padded message) / 64)) };

    // The same two lines in both hashes; what differs is the digest of a message that fits.
    fn hash(message: &[u8]) -> Result<[u8; 32], Refusal> {
        check_length(message.len())?;
        Ok(digest_of(message))
    }
}
