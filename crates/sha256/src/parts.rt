// The digest of a message that comes in parts.
ghost use Rattle.std.specs.Prelude.{◌≡◌, ℕ, ◌+◌, ◌*◌, ◌%◌, ◌≤◌, List, ◌++◌, length, take};
ghost use Rattle.std.specs.Simd.{first_chunks};
ghost use Rattle.digest.specs.Hashing.{longest};
ghost use Rattle.sha256.specs.Parts.{Taken};

use crate::blocks::absorb_blocks;
use crate::compression::absorb;
use crate::constants::FIRST_HASH_VALUE;
use crate::last::absorb_last;
use crate::output::bytes_of;
use crate::state::Sha256;
use digest::{HashInParts, check_length};
use refusal::Refusal;

impl HashInParts for Sha256 {
    ghost taken = { Taken };

    ghost size = { λ state. state.size };

    ghost counted = { λ state bytes before. before.counted };

    fn new() -> Sha256 {
        Sha256 {
            words: FIRST_HASH_VALUE,
            pending: [0; 64],
            size: 0,
        }
    }

    // The same in both hashes: as one body of the trait it would need the state's size and its taking of parts in the trait too.
    fn update(&mut self, part: &[u8]) -> Result<(), Refusal> {
        check_length(usize::from(self.size) + part.len())?;
        self.take_part(part);
        Ok(())
    }

    fn finish(self) -> [u8; 32] {
        let size = usize::from(self.size);
        let mut words = self.words;
        absorb_last(&mut words, &self.pending[0..size % 64], size);
        bytes_of(words)
    }
}

// What these take fits behind the bytes before it. That is a fact of the state and the bytes together, and no invariant.
impl Sha256 {
    // Takes bytes that fit behind those pending.
    fn hold(&mut self, few: &[u8])
        requires { (self.old.size % 64 + length few.now ≤ 64) × (self.old.size + length few.now ≤ longest) }
        ensures size { self.new.size ≡ self.old.size + length few.now }
        ensures taken { (bytes : List ℕ) → Taken self.old bytes → Taken self.new (bytes ++ few.now) }
    {
        let held = usize::from(self.size) % 64;
        self.pending[held..held + few.len()].copy_from_slice(few);
        if held + few.len() == 64 {
            absorb(&mut self.words, &self.pending);
        }
        // No more than 65,535 bytes are taken in all.
        self.size += few.len() as u16;
    }

    // Takes whole blocks where none is begun.
    fn take_blocks(&mut self, blocks: &[[u8; 64]])
        requires { (self.old.size % 64 ≡ 0) × (self.old.size + 64 * length blocks.now ≤ longest) }
        ensures size { self.new.size ≡ self.old.size + 64 * length blocks.now }
        ensures taken { (bytes more : List ℕ) → Taken self.old bytes → 64 * length blocks.now ≤ length more → blocks.now ≡ first_chunks 64 (length blocks.now) more → Taken self.new (bytes ++ take (64 * length blocks.now) more) }
    {
        absorb_blocks(&mut self.words, blocks);
        // No more than 65,535 bytes are taken in all.
        self.size += 64 * blocks.len() as u16;
    }

    // Takes a part that there is room for.
    fn take_part(&mut self, part: &[u8])
        requires { self.old.size + length part.now ≤ longest }
        ensures { (bytes : List ℕ) → Taken self.old bytes → Taken self.new (bytes ++ part.now) }
    {
        let held = usize::from(self.size) % 64;
        if part.len() < 64 - held {
            self.hold(part);
            return;
        }
        let (front, rest) = part.split_at((64 - held) % 64);
        self.hold(front);
        let (blocks, tail) = rest.as_chunks::<64>();
        self.take_blocks(blocks);
        self.hold(tail);
    }
}
