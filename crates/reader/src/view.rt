//! A string of a proof, as borrowed parts of the proof's bytes.

ghost use Rattle.std.specs.Prelude.{◌≡◌, ◌≤◌, length, take};
ghost use Rattle.reader.specs.LookedFor.{shown};
ghost use Rattle.reader.specs.Parts.{numbers_in};
ghost use Rattle.reader.specs.Views.{digest_at, digest_place_at, four_numbers, number_at, seen_in};

use std::array;

/// A proof may hold any number for a kind.
#[derive(Clone, Copy, Debug, PartialEq, Eq)]
pub struct NodeView<'a> {
    pub(crate) kind: u32,
    pub(crate) string: &'a [u8],
    pub(crate) numbers: &'a [u8],
    pub(crate) successors: &'a [u8],
    pub(crate) begins: usize,
    pub(crate) ends: usize,
}

impl<'a> NodeView<'a> {
    pub fn kind(&self) -> u32
        ensures { result ≡ (seen_in self.now).kind }
    {
        self.kind
    }

    /// All its bytes.
    pub fn string(&self) -> &'a [u8]
        ensures { result.now ≡ (seen_in self.now).string }
    {
        self.string
    }

    pub fn number_bytes(&self) -> &'a [u8]
        ensures { result.now ≡ (seen_in self.now).numbers }
    {
        self.numbers
    }

    pub fn successor_bytes(&self) -> &'a [u8]
        ensures { result.now ≡ (seen_in self.now).successors }
    {
        self.successors
    }

    /// The place of its first byte in the proof.
    pub fn begins(&self) -> usize
        ensures { result ≡ (seen_in self.now).begins }
    {
        self.begins
    }

    /// The place after its last byte.
    pub fn ends(&self) -> usize
        ensures { result ≡ (seen_in self.now).ends }
    {
        self.ends
    }

    /// Its number at an index, if it has one.
    pub fn number(&self, i: usize) -> Option<i32>
        ensures { result ≡ number_at (seen_in self.now) i }
    {
        let (words, _) = self.numbers.as_chunks();
        let word = words.get(i)?;
        Some(i32::from_be_bytes(*word))
    }

    /// Its first four numbers; 0 stands for each that it has not.
    pub fn four_numbers(&self) -> [i32; 4]
        ensures answer { result ≡ four_numbers (seen_in self.now) }
        ensures cut { length (numbers_in self.now.numbers.now) ≤ 4 → take (length (numbers_in self.now.numbers.now)) result ≡ numbers_in self.now.numbers.now }
    {
        array::from_fn(|i| self.number(i).unwrap_or(0))
    }

    /// The digest of its successor at an index, if it has one.
    pub fn digest(&self, i: usize) -> Option<&'a [u8; 32]>
        ensures { shown result ≡ digest_at (seen_in self.now) i }
    {
        let (digests, _) = self.successors.as_chunks();
        digests.get(i)
    }

    /// The place in the proof where that digest begins.
    pub fn digest_place(&self, i: usize) -> Option<usize>
        ensures { result ≡ digest_place_at (seen_in self.now) i }
    {
        if i >= self.successors.len() / 32 {
            return None;
        }
        Some(self.ends.saturating_sub(self.successors.len() - 32 * i))
    }
}
