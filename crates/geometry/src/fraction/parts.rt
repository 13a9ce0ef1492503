// Making fractions.
ghost use Rattle.std.specs.Prelude.{◌≡◌, pos, negsuc, ◌≤ℤ◌, ◌<ℤ◌};
ghost use Rattle.geometry.specs.Fraction.{whole};
ghost use Rattle.geometry.specs.Held.{ratio_of};

use super::Fraction;
use records::coordinate::Coordinate;

impl Fraction {
    // The coordinate itself, to compare a height with it.
    pub fn whole(y: Coordinate) -> Fraction
        ensures { ratio_of result ≡ whole y.value }
    {
        Fraction {
            over: i64::from(y.value()),
            under: 1,
        }
    }

    // A numerator over a denominator.
    pub(crate) fn of_parts(over: i64, under: i64) -> Fraction
        requires least { negsuc 1499999999999 ≤ℤ over }
        requires greatest { over ≤ℤ pos 1500000000000 }
        requires positive { pos 0 <ℤ under }
        requires small { under ≤ℤ pos 1000000 }
        ensures over { result.over ≡ over }
        ensures under { result.under ≡ under }
    {
        Fraction { over, under }
    }
}
