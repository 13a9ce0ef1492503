// Whole blocks, one after the other.
ghost use Rattle.std.specs.Prelude.{◌≡◌, ℕ, List, length};
ghost use Rattle.std.specs.Simd.{first_chunks};
ghost use Rattle.sha256.specs.Standard.{after};

use crate::compression::absorb;
use crate::words::Words;

// Takes all of the blocks into the hash value.
pub(crate) fn absorb_blocks(h: &mut Words, blocks: &[[u8; 64]])
    ensures { (bytes : List ℕ) → blocks.now ≡ first_chunks 64 (length blocks.now) bytes → h.new ≡ after h.old bytes (length blocks.now) }
{
    for block in blocks {
        absorb(h, block);
    }
}
