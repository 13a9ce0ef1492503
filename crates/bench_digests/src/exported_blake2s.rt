// BLAKE2s-256 for a caller in C.
ghost use Rattle.std.specs.Prelude.{◌≡◌};
ghost use Rattle.bench_digests.specs.Answers.{taken, written};
ghost use Rattle.blake2s.specs.Standard.{blake2s};
ghost use Rattle.digest.specs.Hashing.{hashed};

use crate::writing::write_digest;
use blake2s::Blake2s;

#[unsafe(no_mangle)]
pub extern "C" fn rattle_blake2s(message: &[u8], out: &mut [u8; 32]) -> bool
    ensures answer { result ≡ taken (hashed blake2s message.now) }
    ensures output { out.new ≡ written (hashed blake2s message.now) out.old }
{
    write_digest::<Blake2s>(message, out)
}
