// A digest for a caller in C, who has no Result.
ghost use Rattle.std.specs.Prelude.{◌≡◌};
ghost use Rattle.bench_digests.specs.Answers.{taken, written};
ghost use Rattle.digest.specs.Hashing.{hashed};

use digest::Hash;

// Writes the digest, and answers whether the message was taken.
pub(crate) fn write_digest<H: Hash>(message: &[u8], out: &mut [u8; 32]) -> bool
    ensures answer { result ≡ taken (hashed H.digest message.now) }
    ensures output { out.new ≡ written (hashed H.digest message.now) out.old }
{
    match H::hash(message) {
        Ok(digest) => {
            *out = digest;
            true
        }
        Err(_) => false,
    }
}
