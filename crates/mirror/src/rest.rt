//! What is left of a proof, held against a string.

ghost use Rattle.std.specs.Prelude.{◌≡◌, ◌≤◌, length};
ghost use Rattle.calls.specs.Comparing.{differs_at, goes_on_with, string_there};
ghost use Rattle.digest.specs.Hashing.{longest};
ghost use Rattle.mirror.specs.Positions.{accepted, position_at};
ghost use Rattle.reader.specs.LookedFor.{shown};

use calls::outcomes::Comparison;
use digest::Hash;
use reader::Reader;
use search::chart::Chart;

/// A proof from a place on. What stands before was compared.
#[derive(Drop)]
pub(crate) struct Rest<'a> {
    pub(crate) proof: &'a [u8],
    pub(crate) at: usize,
    ghost short: { length proof.now ≤ longest },
    ghost within: { at ≤ length proof.now },
}

impl<'a> Rest<'a> {
    /// Whether the proof goes on with the string.
    pub(crate) fn goes_on_with(&self, string: &[u8]) -> bool
        ensures { result ≡ goes_on_with (position_at self.now.proof.now self.now.at) string.now }
    {
        self.proof[self.at..].starts_with(string)
    }

    /// How the proof differs, which does not go on with the string of the node at a place: it has another string there, of one
    /// digest with it, or any other bytes. Both digests are computed.
    pub(crate) fn differs_at<H: Hash, C: Chart>(&self, place: usize, string: &[u8]) -> Comparison
        requires { length string.now ≤ longest }
        ensures { result ≡ differs_at C.Chart.judging H.Hash.digest place string.now (position_at self.now.proof.now self.now.at) }
    {
        if let Some(there) = string_there::<C>(&self.proof[self.at..]) {
            if digest_of::<H>(there) == digest_of::<H>(string) {
                return Comparison::Clash {
                    place,
                    byte: self.at,
                };
            }
        }
        Comparison::Difference {
            place,
            byte: self.at,
        }
    }
}

/// The whole string of a known kind with which the bytes begin.
fn string_there<'a, C: Chart>(bytes: &'a [u8]) -> Option<&'a [u8]>
    requires { length bytes.now ≤ longest }
    ensures { shown result ≡ accepted (string_there C.Chart.judging (position_at bytes.now 0)) }
{
    let Ok(mut reader) = Reader::new(bytes) else {
        unreachable()
    };
    let kind = reader.read_kind().ok()?;
    let shape = C::shape_of(kind)?;
    let view = reader.read_rest(shape).ok()?;
    Some(view.string())
}

fn digest_of<H: Hash>(message: &[u8]) -> [u8; 32]
    requires { length message.now ≤ longest }
    ensures { result ≡ H.Hash.digest message.now }
{
    let Ok(digest) = H::hash(message) else {
        unreachable()
    };
    digest
}
