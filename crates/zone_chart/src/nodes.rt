//! The records of a zone chart's nodes.
ghost use Rattle.std.specs.Prelude.{◌≡◌, [], ◌∷◌, pos};
ghost use Rattle.node.specs.Kinds.{number_of};
ghost use Rattle.node.specs.declared.kind.Kind.TheVariants.{Split as SplitKind, Edge as EdgeKind, Zone as ZoneKind};
ghost use Rattle.geometry.specs.Held.{raw_of};
ghost use Rattle.search.specs.Sheet.{record_of};

use geometry::edge::Edge;
use node::Kind;
use records::coordinate::Coordinate;
use records::zone::Zone;
use search::sheet::SheetRecord;

pub(crate) fn zone_record(zone: Zone) -> SheetRecord
    ensures { result ≡ record_of (record { kind = number_of ZoneKind; numbers = pos zone ∷ []; successors = [] }) }
{
    SheetRecord::of_node(u32::from(Kind::Zone), &[i32::from(zone)], &[])
}

pub(crate) fn split_record(x: Coordinate, low: u32, high: u32) -> SheetRecord
    ensures { result ≡ record_of (record { kind = number_of SplitKind; numbers = x.value ∷ []; successors = low ∷ high ∷ [] }) }
{
    SheetRecord::of_node(u32::from(Kind::Split), &[x.value()], &[low, high])
}

pub(crate) fn edge_record(edge: &Edge, below: u32, above: u32) -> SheetRecord
    ensures { result ≡ record_of (record { kind = number_of EdgeKind; numbers = (raw_of edge.now).x1 ∷ (raw_of edge.now).y1 ∷ (raw_of edge.now).x2 ∷ (raw_of edge.now).y2 ∷ []; successors = below ∷ above ∷ [] }) }
{
    let left = edge.left();
    let right = edge.right();
    SheetRecord::of_node(
        u32::from(Kind::Edge),
        &[
            left.x.value(),
            left.y.value(),
            right.x.value(),
            right.y.value(),
        ],
        &[below, above],
    )
}
