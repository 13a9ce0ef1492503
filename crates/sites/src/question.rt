//! Which rectangles are questions.
ghost use Rattle.std.specs.Prelude.{◌≡◌};
ghost use Rattle.sites.specs.Question.{is_within_bounds, runs_forward};

use records::coordinate::is_coordinate;
use records::raw::Rectangle;

pub fn is_within_bounds(question: &Rectangle) -> bool
    ensures { result ≡ is_within_bounds question.now }
{
    runs_forward(question.west, question.east) && runs_forward(question.south, question.north)
}

/// Whether two limits are coordinates and do not run backward.
pub fn runs_forward(low: i64, high: i64) -> bool
    ensures { result ≡ runs_forward low high }
{
    is_coordinate(low) && is_coordinate(high) && low <= high
}
