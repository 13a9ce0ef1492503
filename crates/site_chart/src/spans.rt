//! The least and the greatest coordinate of some sites.
ghost use Rattle.std.specs.Prelude.{◌≡◌, [], ◌∷◌};
ghost use Rattle.site_figure.specs.Figure.{span_of as span_told};
ghost use Rattle.site_chart.specs.Along.{records_along};

use crate::axes::Axis;
use crate::orders::Along;

#[derive(Clone, Copy)]
pub(crate) struct Span {
    pub(crate) least: i32,
    pub(crate) greatest: i32,
}

/// Of no site both are 0.
pub(crate) fn span_of<A: Axis>(sites: &[Along<A>]) -> Span
    ensures { result.least ∷ result.greatest ∷ [] ≡ span_told A.coordinate (records_along sites.now) }
{
    let coordinates = sites.iter().map(|s| A::coordinate(&s.site));
    let least = coordinates.min().unwrap_or(0);
    let coordinates = sites.iter().map(|s| A::coordinate(&s.site));
    let greatest = coordinates.max().unwrap_or(0);
    Span { least, greatest }
}
