//! Nodes whose numbers are fit, by what the numbers tell.
ghost use Rattle.std.specs.Prelude.{◌≡◌, IfSome, Some, pos, if◌then◌else◌, None};
ghost use Rattle.std.specs.Option.{is_some};
ghost use Rattle.node.specs.Kinds.{kind_numbered};
ghost use Rattle.sites.specs.Site.{is_site, raw_of};
ghost use Rattle.sites.specs.Question.{runs_forward};
ghost use Rattle.site_figure.specs.Judge.{is_fit_as};
ghost use Rattle.site_chart.specs.Told.{kind_of, numbers_of, site_told};

use crate::spans::Span;
use node::Kind;
use records::raw::SiteRecord;
use sites::question::runs_forward;
use sites::site::Site;

#[derive(Clone, Copy)]
pub(crate) enum FitNode {
    Empty,
    XSpan(Span),
    YSpan(Span),
    Site(Site),
}

/// None where the numbers are not fit for a node of the kind.
#[inline(always)]
pub(crate) fn fit_node(kind: u32, numbers: &[i32]) -> Option<FitNode>
    ensures fit { is_some result ≡ is_fit_as (kind_numbered kind) numbers.now }
    ensures told { IfSome result (λ node. (kind_numbered kind ≡ Some (kind_of node)) × (numbers.now ≡ numbers_of node)) }
{
    match (Kind::try_from(kind).ok()?, numbers) {
        (Kind::Empty, []) => Some(FitNode::Empty),
        (Kind::XSpan, [least, greatest]) => fit_span(*least, *greatest).map(FitNode::XSpan),
        (Kind::YSpan, [least, greatest]) => fit_span(*least, *greatest).map(FitNode::YSpan),
        (Kind::Site, [number, x, y]) => fit_site(*number, *x, *y).map(FitNode::Site),
        _ => None,
    }
}

fn fit_span(least: i32, greatest: i32) -> Option<Span>
    ensures { result ≡ (if runs_forward least greatest then Some (record { least = least; greatest = greatest }) else None) }
{
    runs_forward(i64::from(least), i64::from(greatest)).then_some(Span { least, greatest })
}

fn fit_site(number: i32, x: i32, y: i32) -> Option<Site>
    ensures fit { is_some result ≡ is_site (site_told number x y) }
    ensures told { IfSome result (λ site. raw_of site ≡ site_told number x y) }
{
    Site::new(SiteRecord {
        number: i64::from(number),
        x: i64::from(x),
        y: i64::from(y),
    })
}
