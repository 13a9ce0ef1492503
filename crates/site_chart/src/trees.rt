//! What the figure draws of sites along an axis: a tree that halves them, whose spans have a kind of their own.
ghost use Rattle.std.specs.Prelude.{◌≡◌, ℕ, List, ◌++◌, refl};
ghost use Rattle.records.specs.declared.raw.SiteRecord.{SiteRecord};
ghost use Rattle.node.specs.declared.kind.Kind.TheVariants.{XSpan, YSpan};
ghost use Rattle.node.specs.Kinds.{number_of};
ghost use Rattle.search.specs.Rose.{Rose, Roses, grown, end, more};
ghost use Rattle.search.specs.Drafting.{Draws, drawn_in};
ghost use Rattle.site_figure.specs.Halving.{Tree, none, one, both, leaves_of};
ghost use Rattle.site_figure.specs.Figure.{empty_rose, site_rose, span_of as span_told, x_rose, y_rose, y_tree};
ghost use Rattle.site_chart.specs.Along.{records_along};
ghost use Rattle.site_chart.specs.Spanned.{spanned};

use crate::axes::{Axis, X, Y};
use crate::drawing::draw_across;
use crate::rows::Row;
use crate::spans::{Span, span_of};
use node::Kind;
use refusal::Refusal;
use search::drafting::Draft;
use search::sheet::SheetRecord;

pub trait TreeAxis: Axis {
    ghost rose: { Tree SiteRecord → Rose };

    /// The kind of a span, and what it has after its halves.
    ghost kind: { ℕ };

    ghost besides: { List SiteRecord → Roses };

    /// Draws the span of the sites, where the nodes of their halves have places.
    fn draw_span(
        draft: &mut Draft<'_>,
        row: &Row<'_, Self>,
        left: u32,
        right: u32,
    ) -> Result<u32, Refusal>
        ensures { Draws draft.old draft.new result (spanned kind (span_told Self.coordinate (records_along row.now.sites.now)) left right (besides (records_along row.now.sites.now)) (drawn_in draft.old)) };

    ghost of_none: { rose none ≡ empty_rose };

    ghost of_one: { (s : SiteRecord) → rose (one s) ≡ site_rose s };

    ghost of_both: { (l r : Tree SiteRecord) → rose (both l r) ≡ grown kind (span_told Self.coordinate (leaves_of l ++ leaves_of r)) (more (rose l) (more (rose r) (besides (leaves_of l ++ leaves_of r)))) };
}

impl TreeAxis for X {
    ghost rose = { x_rose };

    ghost kind = { number_of XSpan };

    ghost besides = { λ sites. more (y_tree sites) end };

    ghost of_none = { refl };

    ghost of_one = { λ s. refl };

    ghost of_both = { λ l r. refl };

    fn draw_span(
        draft: &mut Draft<'_>,
        row: &Row<'_, X>,
        left: u32,
        right: u32,
    ) -> Result<u32, Refusal> {
        let Span { least, greatest } = span_of(row.sites);
        let across = draw_across(draft, row)?;
        draft.draw(SheetRecord::of_node(
            u32::from(Kind::XSpan),
            &[least, greatest],
            &[left, right, across],
        ))
    }
}

impl TreeAxis for Y {
    ghost rose = { y_rose };

    ghost kind = { number_of YSpan };

    ghost besides = { λ sites. end };

    ghost of_none = { refl };

    ghost of_one = { λ s. refl };

    ghost of_both = { λ l r. refl };

    fn draw_span(
        draft: &mut Draft<'_>,
        row: &Row<'_, Y>,
        left: u32,
        right: u32,
    ) -> Result<u32, Refusal> {
        let Span { least, greatest } = span_of(row.sites);
        draft.draw(SheetRecord::of_node(u32::from(Kind::YSpan), &[least, greatest], &[left, right]))
    }
}
