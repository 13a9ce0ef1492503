// The digest of a message that comes in parts.
ghost use Rattle.std.specs.Prelude.{◌≡◌, ℕ, ◌+◌, ◌-◌, ◌*◌, ◌/◌, ◌%◌, ◌<◌, ◌≤◌, List, ◌++◌, length};
ghost use Rattle.digest.specs.Hashing.{longest};
ghost use Rattle.blake2s.specs.Parts.{Taken, Flushed};

use crate::blocks::absorb_blocks;
use crate::compression::absorb;
use crate::last::absorb_last;
use crate::message::{blocks_before_last, first_state};
use crate::output::bytes_of;
use crate::state::Blake2s;
use digest::{HashInParts, check_length};
use refusal::Refusal;

// How many of the bytes taken are pending: what the blocks before the last leave.
fn count_pending(size: usize) -> usize
    ensures { result ≡ size - 64 * ((size - 1) / 64) }
{
    size - 64 * blocks_before_last(size)
}

impl HashInParts for Blake2s {
    ghost taken = { Taken };

    ghost size = { λ state. state.size };

    ghost counted = { λ state bytes before. before.counted };

    fn new() -> Blake2s {
        Blake2s {
            words: first_state(),
            pending: [0; 64],
            size: 0,
        }
    }

    // The same in both hashes: as one body of the trait it would need the state's size and its taking of parts in the trait too.
    fn update(&mut self, part: &[u8]) -> Result<(), Refusal> {
        check_length(usize::from(self.size) + part.len())?;
        self.take_part(part);
        Ok(())
    }

    fn finish(self) -> [u8; 32] {
        let size = usize::from(self.size);
        let held = count_pending(size);
        let mut words = self.words;
        absorb_last(&mut words, &self.pending[0..held], size);
        bytes_of(words)
    }
}

// What these take fits behind the bytes before it. That is a fact of the state and the bytes together, and no invariant.
impl Blake2s {
    // Takes bytes that fit behind those pending.
    fn hold(&mut self, few: &[u8])
        requires { (self.old.size - 64 * ((self.old.size - 1) / 64) + length few.now ≤ 64) × (self.old.size + length few.now ≤ longest) }
        ensures size { self.new.size ≡ self.old.size + length few.now }
        ensures taken { (bytes : List ℕ) → Taken self.old bytes → Taken self.new (bytes ++ few.now) }
    {
        let held = count_pending(usize::from(self.size));
        self.pending[held..held + few.len()].copy_from_slice(few);
        // No more than 65,535 bytes are taken in all.
        self.size += few.len() as u16;
    }

    // Absorbs the whole block that is pending, if any byte is: more are sure to come.
    fn flush(&mut self)
        requires { self.old.size % 64 ≡ 0 }
        ensures size { self.new.size ≡ self.old.size }
        ensures flushed { (bytes : List ℕ) → Taken self.old bytes → Flushed self.new bytes }
    {
        if self.size > 0 {
            absorb(
                &mut self.words,
                &self.pending,
                usize::from(self.size),
                false,
            );
        }
    }

    // Takes the rest of a part where nothing is pending: its blocks before the last where they lie, then what they leave.
    fn take_rest(&mut self, rest: &[u8])
        requires { (self.old.size % 64 ≡ 0) × ((0 < length rest.now) × (self.old.size + length rest.now ≤ longest)) }
        ensures { (bytes : List ℕ) → Flushed self.old bytes → Taken self.new (bytes ++ rest.now) }
    {
        let (front, tail) = rest.split_at(64 * blocks_before_last(rest.len()));
        let (blocks, _) = front.as_chunks::<64>();
        let taken = usize::from(self.size);
        absorb_blocks(&mut self.words, blocks, taken);
        self.pending[0..tail.len()].copy_from_slice(tail);
        // No more than 65,535 bytes are taken in all.
        self.size += rest.len() as u16;
    }

    // Takes a part that there is room for.
    fn take_part(&mut self, part: &[u8])
        requires { self.old.size + length part.now ≤ longest }
        ensures { (bytes : List ℕ) → Taken self.old bytes → Taken self.new (bytes ++ part.now) }
    {
        let held = count_pending(usize::from(self.size));
        if part.len() <= 64 - held {
            self.hold(part);
            return;
        }
        let (front, rest) = part.split_at((64 - held) % 64);
        self.hold(front);
        self.flush();
        self.take_rest(rest);
    }
}
