// The digest of a message that is there whole: its blocks are read where they lie.
ghost use Rattle.std.specs.Prelude.{◌≡◌, ◌≤◌, length};
ghost use Rattle.digest.specs.Hashing.{longest};
ghost use Rattle.sha256.specs.Standard.{sha256};

use crate::blocks::absorb_blocks;
use crate::constants::FIRST_HASH_VALUE;
use crate::last::absorb_last;
use crate::output::bytes_of;

pub(crate) fn digest_of(message: &[u8]) -> [u8; 32]
    requires { length message.now ≤ longest }
    ensures { result ≡ sha256 message.now }
{
    let (blocks, rest) = message.as_chunks::<64>();
    let mut words = FIRST_HASH_VALUE;
    absorb_blocks(&mut words, blocks);
    absorb_last(&mut words, rest, message.len());
    bytes_of(words)
}
