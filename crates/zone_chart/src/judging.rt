//! How a zone chart judges a node by a point.
ghost use Rattle.std.specs.Prelude.{◌≡◌, ◌+◌, ◌<◌, true, length, pos, slice_index_or};
ghost use Rattle.records.specs.Positions.{is_position, point_of};
ghost use Rattle.zones.specs.Question.{is_within_bounds};
ghost use Rattle.search.specs.Judging.{judged};
ghost use Rattle.search.specs.Verdict.{judgement_of};
ghost use Rattle.zone_figure.specs.Judge.{zone_judging, split_fits, edge_fits, zone_fits, is_above, judge_split, judge_edge, judge_zone};

use crate::fitness::numbers_fit;
use node::Kind;
use records::coordinate::is_coordinate;
use records::position::Position;
use records::raw::Point;
use search::verdict::Verdict;

/// Whether both coordinates of a question are in range.
pub(crate) fn point_is_within_bounds(question: &Point) -> bool
    ensures { result ≡ is_within_bounds question.now }
{
    is_coordinate(question.x) && is_coordinate(question.y)
}

/// Nothing for a question out of bounds or unfit numbers.
pub(crate) fn judge_node(question: &Point, kind: u32, numbers: &[i32]) -> Verdict
    ensures { judgement_of result ≡ judged zone_judging question.now kind numbers.now }
{
    if !point_is_within_bounds(question) || !numbers_fit(kind, numbers) {
        return Verdict::nothing();
    }
    match Kind::try_from(kind) {
        Ok(Kind::Split) => judge_split(question, numbers),
        Ok(Kind::Edge) => judge_edge(question, numbers),
        Ok(Kind::Zone) => judge_zone(numbers),
        _ => Verdict::nothing(),
    }
}

/// Low, or high.
fn judge_split(question: &Point, numbers: &[i32]) -> Verdict
    requires { split_fits numbers.now ≡ true }
    ensures { judgement_of result ≡ judge_split question.now numbers.now }
{
    if question.x < i64::from(numbers[0]) {
        Verdict::to(0)
    } else {
        Verdict::to(1)
    }
}

/// Above, or below.
fn judge_edge(question: &Point, numbers: &[i32]) -> Verdict
    requires within { is_within_bounds question.now ≡ true }
    requires fits { edge_fits numbers.now ≡ true }
    ensures { judgement_of result ≡ judge_edge question.now numbers.now }
{
    let point = position(*question);
    let left = position(point_at(numbers, 0));
    let right = position(point_at(numbers, 2));
    if is_above(point, left, right) {
        Verdict::to(1)
    } else {
        Verdict::to(0)
    }
}

/// The point that two numbers of a node tell, from a place on.
fn point_at(numbers: &[i32], place: usize) -> Point
    requires { place + 1 < length numbers.now }
    ensures { result ≡ record { x = slice_index_or numbers.now place (pos 0); y = slice_index_or numbers.now (place + 1) (pos 0) } }
{
    Point {
        x: i64::from(numbers[place]),
        y: i64::from(numbers[place + 1]),
    }
}

fn position(point: Point) -> Position
    requires { is_position point ≡ true }
    ensures { point_of result ≡ point }
{
    match Position::new(&point) {
        Some(position) => position,
        None => unreachable(),
    }
}

/// Whether a point is on or above the line through the ends of an edge.
fn is_above(point: Position, left: Position, right: Position) -> bool
    ensures { result ≡ is_above (point_of point) left.x.value left.y.value right.x.value right.y.value }
{
    let rise = (right.x - left.x) * (point.y - left.y);
    let climb = (right.y - left.y) * (point.x - left.x);
    rise - climb >= 0
}

fn judge_zone(numbers: &[i32]) -> Verdict
    requires { zone_fits numbers.now ≡ true }
    ensures { judgement_of result ≡ judge_zone numbers.now }
{
    Verdict::emitting(numbers[0] as u16)
}
