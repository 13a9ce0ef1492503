//! The figure of sites drawn into a draft, node by node, successors first.
ghost use Rattle.std.specs.Prelude.{◌≡◌};
ghost use Rattle.search.specs.Drafting.{DrawsRose};
ghost use Rattle.sites.specs.Register.{held};
ghost use Rattle.site_figure.specs.Figure.{x_tree, y_tree};
ghost use Rattle.site_figure.specs.Halving.{tree_of};
ghost use Rattle.site_chart.specs.Along.{records_along};

use crate::axes::{X, Y};
use crate::nodes::{empty_node, site_node};
use crate::rows::Row;
use crate::sorting::sorted_along;
use crate::trees::TreeAxis;
use refusal::Refusal;
use search::drafting::Draft;
use sites::register::SiteRegister;

/// Draws the tree of sites in the order of an axis.
fn draw_tree<A: TreeAxis>(draft: &mut Draft<'_>, row: &Row<'_, A>) -> Result<u32, Refusal>
    ensures { DrawsRose draft.old draft.new result (A.rose (tree_of (records_along row.now.sites.now))) }
{
    match row.sites {
        [] => draft.draw(empty_node()),
        [only] => draft.draw(site_node(&only.site)),
        sites => {
            let (lesser, greater) = sites.split_at(sites.len().div_ceil(2));
            let left = draw_tree(draft, &Row { sites: lesser })?;
            let right = draw_tree(draft, &Row { sites: greater })?;
            A::draw_span(draft, row, left, right)
        }
    }
}

/// Draws the y tree of sites in another order.
pub(crate) fn draw_across(draft: &mut Draft<'_>, row: &Row<'_, X>) -> Result<u32, Refusal>
    ensures { DrawsRose draft.old draft.new result (y_tree (records_along row.now.sites.now)) }
{
    let run = sorted_along::<_, Y>(row.sites);
    let sites = run.as_slice();
    draw_tree(draft, &Row { sites })
}

/// Draws the x tree of the sites held.
pub(crate) fn draw_register(draft: &mut Draft<'_>, register: &SiteRegister) -> Result<u32, Refusal>
    ensures { DrawsRose draft.old draft.new result (x_tree (held register.now)) }
{
    let run = sorted_along::<_, X>(register.sites());
    let sites = run.as_slice();
    draw_tree(draft, &Row { sites })
}
