//! The digest that the next string of a proof has to have.

ghost use Rattle.std.specs.Prelude.{◌≡◌};
ghost use Rattle.reader.specs.LookedFor.{digest_from, looked_for, shown};

/// Where a digest stands: it is the adopted root, or it begins at a byte of the proof. An `Option`
/// of a place would not say that the root is what has no place.
#[derive(Clone, Copy, Debug, PartialEq, Eq)]
pub enum DigestPlace {
    InRoot,
    InProof(usize),
}

/// The 32 bytes at that place, if there are as many.
pub fn looked_for<'a>(root: &'a [u8], proof: &'a [u8], place: DigestPlace) -> Option<&'a [u8; 32]>
    ensures { shown result ≡ looked_for root.now proof.now place }
{
    match place {
        DigestPlace::InRoot => digest_from(root, 0),
        DigestPlace::InProof(at) => digest_from(proof, at),
    }
}

fn digest_from(bytes: &[u8], at: usize) -> Option<&[u8; 32]>
    ensures { shown result ≡ digest_from bytes.now at }
{
    bytes.get(at..)?.first_chunk()
}
