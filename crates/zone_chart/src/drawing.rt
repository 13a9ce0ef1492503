//! The trees of edges, slabs and runs of slabs, drawn into a draft.
ghost use Rattle.std.specs.Prelude.{map, pos};
ghost use Rattle.zones.specs.Register.{held};
ghost use Rattle.search.specs.Drafting.{DrawsRose};
ghost use Rattle.zone_figure.specs.Halving.{bush_of};
ghost use Rattle.zone_figure.specs.Slab.{edges_before, edge_tree, slab_tree};
ghost use Rattle.zone_figure.specs.Figure.{bounds_before, run_tree, zone_tree};
ghost use Rattle.zone_chart.specs.Contents.{crossed, value_of, west_of};

use crate::bounds::{Bound, gather_bounds};
use crate::halves::{bounds_before, edges_before};
use crate::nodes::{edge_record, split_record, zone_record};
use crate::slab::gather_slab;
use geometry::crossing::Crossing;
use records::coordinate::Coordinate;
use records::zone::Zone;
use refusal::Refusal;
use search::drafting::Draft;
use zones::register::ZoneRegister;

/// The tree of a slab's edges on a floor: the middle edge, those below it on the same floor, those above it on its zone.
fn draw_edges(draft: &mut Draft<'_>, floor: Zone, edges: &[Crossing]) -> Result<u32, Refusal>
    ensures { DrawsRose draft.old draft.new result (edge_tree (pos floor) (bush_of edges_before (map crossed edges.now))) }
{
    if edges.is_empty() {
        return draft.draw(zone_record(floor));
    }
    let at = edges_before(edges.len());
    let middle = edges[at];
    let below = draw_edges(draft, floor, &edges[..at])?;
    let above = draw_edges(draft, middle.edge.zone(), &edges[at + 1..])?;
    draft.draw(edge_record(&middle.edge, below, above))
}

/// The tree of a slab: that of its edges on open ground. The first slab has no west bound, and no edges.
fn draw_slab(
    draft: &mut Draft<'_>,
    register: &ZoneRegister,
    west: Option<Coordinate>,
) -> Result<u32, Refusal>
    ensures { DrawsRose draft.old draft.new result (slab_tree (held register.now) (west_of west)) }
{
    let Some(x) = west else {
        return draft.draw(zone_record(0));
    };
    let slab = gather_slab(register, x);
    draw_edges(draft, 0, slab.as_slice())
}

/// The tree of a run of slabs, which is known by the west bound of its first slab and the bounds inside it: that of its slab,
/// or a split with the trees of the low slabs and of the high ones.
fn draw_run(
    draft: &mut Draft<'_>,
    register: &ZoneRegister,
    west: Option<Coordinate>,
    bounds: &[Bound],
) -> Result<u32, Refusal>
    ensures { DrawsRose draft.old draft.new result (run_tree (held register.now) (west_of west) (bush_of bounds_before (map value_of bounds.now))) }
{
    if bounds.is_empty() {
        return draw_slab(draft, register, west);
    }
    let at = bounds_before(bounds.len());
    let bound = bounds[at];
    let low = draw_run(draft, register, west, &bounds[..at])?;
    let high = draw_run(draft, register, Some(bound.x), &bounds[at + 1..])?;
    draft.draw(split_record(bound.x, low, high))
}

/// The tree of all slabs.
pub(crate) fn draw_zones(draft: &mut Draft<'_>, register: &ZoneRegister) -> Result<u32, Refusal>
    ensures { DrawsRose draft.old draft.new result (zone_tree (held register.now)) }
{
    let bounds = gather_bounds(register);
    draw_run(draft, register, None, bounds.as_slice())
}
