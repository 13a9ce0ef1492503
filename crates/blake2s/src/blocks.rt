// Whole blocks that are not the last, one after the other.
ghost use Rattle.std.specs.Prelude.{◌≡◌, ℕ, ◌+◌, ◌*◌, ◌≤◌, List, length, drop};
ghost use Rattle.std.specs.Simd.{first_chunks};
ghost use Rattle.digest.specs.Hashing.{longest};
ghost use Rattle.blake2s.specs.Standard.{after};

use crate::compression::absorb;

// Takes all of the blocks, which follow the first `taken` bytes of the message, into the state.
pub(crate) fn absorb_blocks(h: &mut [u32; 8], blocks: &[[u8; 64]], taken: usize)
    requires { taken + 64 * length blocks.now ≤ longest }
    ensures { (message : List ℕ) (k : ℕ) → taken ≡ 64 * k → h.old ≡ after message k → blocks.now ≡ first_chunks 64 (length blocks.now) (drop (64 * k) message) → h.new ≡ after message (k + length blocks.now) }
{
    let mut count = taken;
    for block in blocks {
        count += 64;
        absorb(h, block, count, false);
    }
}
