//! What is true of every list of edges that calls of a register can reach.
ghost use Rattle.zones.specs.Holdable.{HeldEdgesAreOrderly, SameEdgesSameList, ZoneIsNamedByOneEdge, ZoneIsTheSameInAnyOrder};

pub fn held_edges_are_orderly() -> u8
    ensures orderly { HeldEdgesAreOrderly }
    ensures members { SameEdgesSameList }
{
    0
}

pub fn zone_is_named_by_one_edge() -> u8
    ensures one { ZoneIsNamedByOneEdge }
    ensures unordered { ZoneIsTheSameInAnyOrder }
{
    0
}
