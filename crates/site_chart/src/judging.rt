//! How a site chart judges: the kinds that it knows, which numbers are fit, and where a node leads.
ghost use Rattle.std.specs.Prelude.{◌≡◌, Some};
ghost use Rattle.search.specs.Judging.{judged};
ghost use Rattle.search.specs.Verdict.{judgement_of};
ghost use Rattle.sites.specs.Site.{raw_of};
ghost use Rattle.site_figure.specs.Judge.{is_known, judge_as, judge_site, judge_xspan, judge_yspan, left_then_right, site_judging};
ghost use Rattle.site_chart.specs.Told.{kind_of, numbers_of};

use crate::fit::{FitNode, fit_node};
use crate::spans::Span;
use node::{Kind, Shape};
use records::raw::Rectangle;
use search::verdict::Verdict;
use sites::question::is_within_bounds;
use sites::site::Site;

/// The successors of a span, counted from 0; only an x span has the last.
const LEFT: u8 = 0;

const RIGHT: u8 = 1;

const ACROSS: u8 = 2;

/// The shape of a kind that a site chart knows.
pub fn shape_of(kind: u32) -> Option<Shape>
    ensures { result ≡ site_judging.shape_of kind }
{
    Kind::try_from(kind)
        .ok()
        .filter(|kind| is_known(*kind))
        .map(|kind| kind.shape())
}

// Every kind is named, so that a new one has to be decided here.
fn is_known(kind: Kind) -> bool
    ensures { result ≡ is_known kind }
{
    match kind {
        Kind::Empty | Kind::XSpan | Kind::YSpan | Kind::Site => true,
        Kind::Split | Kind::Edge | Kind::Zone => false,
    }
}

/// Whether the numbers of a node are fit.
pub fn is_fit(kind: u32, numbers: &[i32]) -> bool
    ensures { result ≡ site_judging.is_fit kind numbers.now }
{
    fit_node(kind, numbers).is_some()
}

/// Judges a node by a rectangle: nothing for a rectangle out of bounds or unfit numbers.
// Built into its callers, as `fit_node` and `judge_fit` are: a walk judges at every step, and the bounds are the question's alone.
#[inline(always)]
pub fn judge(question: &Rectangle, kind: u32, numbers: &[i32]) -> Verdict
    ensures { judgement_of result ≡ judged site_judging question.now kind numbers.now }
{
    if !is_within_bounds(question) {
        return Verdict::nothing();
    }
    match fit_node(kind, numbers) {
        Some(node) => judge_fit(question, node),
        None => Verdict::nothing(),
    }
}

#[inline(always)]
fn judge_fit(question: &Rectangle, node: FitNode) -> Verdict
    ensures { judgement_of result ≡ judge_as question.now (Some (kind_of node)) (numbers_of node) }
{
    match node {
        FitNode::Empty => Verdict::nothing(),
        FitNode::XSpan(span) => judge_x_span(question, span),
        FitNode::YSpan(span) => judge_y_span(question, span),
        FitNode::Site(site) => judge_site(question, site),
    }
}

// The spans of x and of y are judged by other sides of the rectangle, and only that of x leads across.
fn judge_x_span(question: &Rectangle, span: Span) -> Verdict
    ensures { judgement_of result ≡ judge_xspan question.now span.least span.greatest }
{
    let low = i64::from(span.least);
    let high = i64::from(span.greatest);
    if high < question.west || question.east < low {
        return Verdict::nothing();
    }
    if question.west <= low && high <= question.east {
        return Verdict::to(ACROSS);
    }
    left_then_right()
}

fn judge_y_span(question: &Rectangle, span: Span) -> Verdict
    ensures { judgement_of result ≡ judge_yspan question.now span.least span.greatest }
{
    let low = i64::from(span.least);
    let high = i64::from(span.greatest);
    if high < question.south || question.north < low {
        return Verdict::nothing();
    }
    left_then_right()
}

fn judge_site(question: &Rectangle, site: Site) -> Verdict
    ensures { judgement_of result ≡ judge_site question.now (raw_of site) }
{
    if site.is_inside(question) {
        Verdict::emitting(site.record_number())
    } else {
        Verdict::nothing()
    }
}

fn left_then_right() -> Verdict
    ensures { judgement_of result ≡ left_then_right }
{
    Verdict::to_both(LEFT, RIGHT)
}
