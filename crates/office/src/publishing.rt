//! What is held, published as a sheet.
ghost use Rattle.std.specs.Prelude.{◌≡◌};
ghost use Rattle.calls.specs.Publishing.{published_sheet, root_in};
ghost use Rattle.search.specs.Sheet.{drawn_count};

use crate::digests::store_digests;
use calls::drawn::DrawnChart;
use digest::Hash;
use refusal::Refusal;
use search::sheet::SheetRecord;

/// Draws the figure of what is held into a sheet, each node with the digest of its string, and answers how many nodes it has.
/// Refused where it has more than there are usable records, and then they hold its first nodes, with zero digests.
pub fn publish<H: Hash, C: DrawnChart>(
    register: &C,
    sheet: &mut [SheetRecord],
) -> Result<usize, Refusal>
    ensures answer { result ≡ drawn_count (C.Chart.drawing.figure (C.Chart.held register.now)) sheet.old }
    ensures after { sheet.new ≡ published_sheet H.Hash.digest (C.Chart.drawing.figure (C.Chart.held register.now)) sheet.old }
{
    register.show_drawn();
    let count = register.draw(sheet)?;
    store_digests::<H, C>(&mut sheet[..count]);
    Ok(count)
}

/// The root: the digest of the last of the counted records.
pub fn root_of(sheet: &[SheetRecord], count: usize) -> Option<[u8; 32]>
    ensures { result ≡ root_in sheet.now count }
{
    let last = sheet.get(count.saturating_sub(1))?;
    Some(last.digest)
}
