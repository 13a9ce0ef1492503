//! What the reader of a proof reports.

ghost use Rattle.std.specs.Prelude.{◌≡◌};
ghost use Rattle.reader.specs.Faults.{place_of};

/// Each case but the first has a byte place.
#[derive(Clone, Copy, Debug, PartialEq, Eq)]
pub enum ReaderFault {
    ProofTooLong,
    /// The bytes end inside the kind of the string that begins there.
    KindCutShort(usize),
    /// The bytes end inside the numbers or the digests of the string that begins there.
    RestCutShort(usize),
    /// Nothing more is to be read, and this is the first byte left.
    BytesLeftOver(usize),
}

impl ReaderFault {
    /// The byte place that it knows; of a proof that is too long, byte 0.
    pub fn place(self) -> usize
        ensures { result ≡ place_of self }
    {
        match self {
            ReaderFault::ProofTooLong => 0,
            ReaderFault::KindCutShort(place)
            | ReaderFault::RestCutShort(place)
            | ReaderFault::BytesLeftOver(place) => place,
        }
    }
}
