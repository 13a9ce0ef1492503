//! The digests of a drawn figure, each the hash of its node's string.
ghost use Rattle.std.specs.Prelude.{◌≡◌};
ghost use Rattle.calls.specs.Publishing.{with_digests};
ghost use Rattle.calls.specs.Sheets.{nodes_of, sound_at, stored_digests};
ghost use Rattle.reader.specs.Reading.{map_ok};
ghost use Rattle.search.specs.Figure.{IsFigure};
ghost use Rattle.search.specs.Honest.{digests_of, string_in};

use digest::Hash;
use refusal::Refusal;
use search::chart::Chart;
use search::sheet::SheetRecord;
use sheets::reading::sound_node;
use sheets::strings::{LONGEST_STRING, string_of};

/// Puts the digest of each record's node into the record, in order, so that those of a node's successors stand there before.
pub(crate) fn store_digests<H: Hash, C: Chart>(counted: &mut [SheetRecord])
    requires { IsFigure C.Chart.judging (nodes_of C.Chart.judging counted.old) }
    ensures { counted.new ≡ with_digests counted.old (digests_of H.Hash.digest (nodes_of C.Chart.judging counted.old)) }
{
    // By place: a digest is of the records before, which no iterator over the records lends.
    for place in 0..counted.len() {
        let Ok(digest) = node_digest::<H, C>(counted, place) else {
            unreachable()
        };
        counted[place].digest = digest;
    }
}

/// The hash of the string of the node at a place. The digests in the string are those stored at its successor places.
fn node_digest<H: Hash, C: Chart>(
    counted: &[SheetRecord],
    place: usize,
) -> Result<[u8; 32], Refusal>
    ensures { result ≡ map_ok (λ node. H.Hash.digest (string_in (stored_digests counted.now) node)) (sound_at C.Chart.judging (nodes_of C.Chart.judging counted.now) place) }
{
    let node = sound_node::<C>(counted, place)?;
    // Every string fits, and nothing is allocated.
    let mut room = [0; LONGEST_STRING];
    let Ok(digest) = H::hash(string_of(counted, &node, &mut room)) else {
        unreachable()
    };
    Ok(digest)
}
