//! The strings of the nodes of a sheet.
ghost use Rattle.std.specs.Prelude.{◌≡◌, ◌≤◌, length};
ghost use Rattle.calls.specs.Sheets.{stored_digests};
ghost use Rattle.std.specs.List.{AllByRecursion};
ghost use Rattle.node.specs.Sizes.{IsDigest};
ghost use Rattle.node.specs.Writing.{written, written_end};
ghost use Rattle.search.specs.Honest.{string_in};
ghost use Rattle.search.specs.Picks.{picks};
ghost use Rattle.sheets.specs.Nodes.{longest_string, node_of};

use crate::reading::SheetNode;
use node::{NoRoom, write_string};
use search::sheet::SheetRecord;

/// Every string fits: four numbers and three digests at most.
pub const LONGEST_STRING: usize = 116;

/// Writes the string of a node from a place of the buffer on, and gives the place after it. The digests in it are those stored in
/// the counted records at its successor places. Refused where it does not fit, and then the buffer is as it was.
pub fn write_node(
    counted: &[SheetRecord],
    node: &SheetNode,
    out: &mut [u8],
    at: usize,
) -> Result<usize, NoRoom>
    ensures answer { result ≡ written_end out.old at (string_in (stored_digests counted.now) (node_of node.now)) }
    ensures short { length (string_in (stored_digests counted.now) (node_of node.now)) ≤ longest_string }
    ensures after { out.new ≡ written out.old at (string_in (stored_digests counted.now) (node_of node.now)) }
{
    let mut room = [[0; 32]; 3];
    let digests = gather(counted, node.successors(), &mut room);
    write_string(out, at, node.kind, node.numbers(), digests).map_err(|_| NoRoom)
}

/// The string of a node, written from the first place of the room on.
pub fn string_of<'a>(
    counted: &[SheetRecord],
    node: &SheetNode,
    room: &'a mut [u8; LONGEST_STRING],
) -> &'a [u8]
    ensures string { result.now ≡ string_in (stored_digests counted.now) (node_of node.now) }
    ensures short { length result.now ≤ longest_string }
{
    let Ok(end) = write_node(counted, node, room, 0) else {
        unreachable()
    };
    &room[..end]
}

/// The digests that are stored at places of the counted records, put into the room.
fn gather<'a>(counted: &[SheetRecord], places: &[u32], room: &'a mut [[u8; 32]]) -> &'a [[u8; 32]]
    requires { length places.now ≤ length room.old }
    ensures whole { AllByRecursion IsDigest (picks (stored_digests counted.now) places.now) }
    ensures stored { result.now ≡ picks (stored_digests counted.now) places.now }
{
    // They follow one another in lent room; an iterator would need memory of its own to collect them in.
    let mut found = 0;
    for place in places {
        // A place has 32 bits, and no `From` makes a usize of them.
        if let Some(shown) = counted.get(*place as usize) {
            room[found] = digest_of(shown);
            found += 1;
        }
    }
    &room[..found]
}

// That it has 32 bytes is known of a record alone, and not of one of a slice.
fn digest_of(shown: &SheetRecord) -> [u8; 32]
    ensures whole { IsDigest result }
    ensures stored { result ≡ shown.now.digest }
{
    shown.digest
}
