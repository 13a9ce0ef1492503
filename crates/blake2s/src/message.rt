// The digest of a message that is there whole: its blocks are read where they lie.
ghost use Rattle.std.specs.Prelude.{◌≡◌, ◌-◌, ◌/◌, ◌≤◌, length};
ghost use Rattle.digest.specs.Hashing.{longest};
ghost use Rattle.blake2s.specs.Standard.{first_state, blake2s};

use crate::blocks::absorb_blocks;
use crate::constants::IV;
use crate::last::absorb_last;
use crate::output::bytes_of;

// The state before the first block.
pub(crate) fn first_state() -> [u32; 8]
    ensures { result ≡ first_state }
{
    [
        IV[0] ^ 0x0101_0020,
        IV[1],
        IV[2],
        IV[3],
        IV[4],
        IV[5],
        IV[6],
        IV[7],
    ]
}

// How many blocks come before the last one.
pub(crate) fn blocks_before_last(size: usize) -> usize
    ensures { result ≡ (size - 1) / 64 }
{
    if size == 0 { 0 } else { (size - 1) / 64 }
}

pub(crate) fn digest_of(message: &[u8]) -> [u8; 32]
    requires { length message.now ≤ longest }
    ensures { result ≡ blake2s message.now }
{
    let (front, rest) = message.split_at(64 * blocks_before_last(message.len()));
    let (blocks, _) = front.as_chunks::<64>();
    let mut words = first_state();
    absorb_blocks(&mut words, blocks, 0);
    absorb_last(&mut words, rest, message.len());
    bytes_of(words)
}
