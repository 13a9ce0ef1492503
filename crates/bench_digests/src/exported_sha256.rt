// SHA-256 for a caller in C.
ghost use Rattle.std.specs.Prelude.{◌≡◌};
ghost use Rattle.bench_digests.specs.Answers.{taken, written};
ghost use Rattle.sha256.specs.Standard.{sha256};
ghost use Rattle.digest.specs.Hashing.{hashed};

use crate::writing::write_digest;
use sha256::Sha256;

#[unsafe(no_mangle)]
pub extern "C" fn rattle_sha256(message: &[u8], out: &mut [u8; 32]) -> bool
    ensures answer { result ≡ taken (hashed sha256 message.now) }
    ensures output { out.new ≡ written (hashed sha256 message.now) out.old }
{
    write_digest::<Sha256>(message, out)
}
