//! Which nodes a zone chart knows, and which numbers of theirs are fit.
ghost use Rattle.std.specs.Prelude.{◌≡◌, ◌&&◌};
ghost use Rattle.records.specs.Range.{is_coordinate};
ghost use Rattle.zone_figure.specs.Judge.{zone_judging, split_fits, edge_fits, zone_fits};

use node::{Kind, Shape};
use records::coordinate::is_coordinate;

/// The shape of a kind that a zone chart knows.
pub(crate) fn known_shape(kind: u32) -> Option<Shape>
    ensures { result ≡ zone_judging.shape_of kind }
{
    match Kind::try_from(kind) {
        Ok(Kind::Split) => Some(Kind::Split.shape()),
        Ok(Kind::Edge) => Some(Kind::Edge.shape()),
        Ok(Kind::Zone) => Some(Kind::Zone.shape()),
        _ => None,
    }
}

/// Whether the numbers of a node are as many as its shape says, and fit.
pub(crate) fn numbers_fit(kind: u32, numbers: &[i32]) -> bool
    ensures { result ≡ zone_judging.is_fit kind numbers.now }
{
    match Kind::try_from(kind) {
        Ok(Kind::Split) => split_fits(numbers),
        Ok(Kind::Edge) => edge_fits(numbers),
        Ok(Kind::Zone) => zone_fits(numbers),
        _ => false,
    }
}

fn split_fits(numbers: &[i32]) -> bool
    ensures { result ≡ split_fits numbers.now }
{
    numbers.len() == 1 && is_coordinate(i64::from(numbers[0]))
}

/// Both ends are in range, and the first is west of the second.
fn edge_fits(numbers: &[i32]) -> bool
    ensures { result ≡ edge_fits numbers.now }
{
    let &[x1, y1, x2, y2] = numbers else {
        return false;
    };
    if !end_is_in_range(x1, y1) {
        return false;
    }
    end_is_in_range(x2, y2) && x1 < x2
}

/// Whether both coordinates of an end are in range.
fn end_is_in_range(x: i32, y: i32) -> bool
    ensures { result ≡ (is_coordinate x && is_coordinate y) }
{
    is_coordinate(i64::from(x)) && is_coordinate(i64::from(y))
}

fn zone_fits(numbers: &[i32]) -> bool
    ensures { result ≡ zone_fits numbers.now }
{
    numbers.len() == 1 && numbers[0] >= 0 && numbers[0] <= 65_535
}
