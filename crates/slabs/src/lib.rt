// What orders the edges of a slab, and what makes the topmost edge under a point unique.
#![tactic(auto)]

ghost use Rattle.slabs.specs.Slab.{OrderIsKept, NeverLevel};
ghost use Rattle.slabs.specs.Topmost.{TopmostNamesTheZone, NamedByOneEdge, ZoneIsThatNamed, ZoneOfOpenGround, AnyOrderNamesIt};
ghost use Rattle.slabs.specs.Worked.{WorkedCases};

/// Two edges that do not conflict keep their order at every x that both cover, and are never level there.
pub fn slab_order_is_kept() -> u8
    ensures kept { OrderIsKept }
    ensures strict { NeverLevel }
{
    0
}

/// Among records that do not conflict one edge at most names the zone of a point, in whatever order they stand.
pub fn zone_is_named_once() -> u8
    ensures topmost { TopmostNamesTheZone }
    ensures once { NamedByOneEdge }
    ensures zone { ZoneIsThatNamed }
    ensures open_ground { ZoneOfOpenGround }
    ensures unordered { AnyOrderNamesIt }
    ensures worked { WorkedCases }
{
    0
}
