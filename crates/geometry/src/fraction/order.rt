// Comparing fractions by cross multiplication.
ghost use Rattle.std.specs.Prelude.{◌≡◌, ◌*ℤ◌};
ghost use Rattle.geometry.specs.Fraction.{difference, less, at_most, level};
ghost use Rattle.geometry.specs.Held.{ratio_of};

use super::Fraction;

// The numerator of the first times the denominator of the second.
fn scaled(first: Fraction, second: Fraction) -> i64
    ensures { result ≡ first.over *ℤ second.under }
{
    first.over * second.under
}

impl Fraction {
    // The numerator of self − other over the product of both denominators.
    pub fn difference(self, other: Fraction) -> i64
        ensures { result ≡ difference (ratio_of self) (ratio_of other) }
    {
        scaled(self, other) - scaled(other, self)
    }

    // Whether self < other.
    pub fn less(self, other: Fraction) -> bool
        ensures { result ≡ less (ratio_of self) (ratio_of other) }
    {
        scaled(self, other) < scaled(other, self)
    }

    // Whether self ≤ other.
    pub fn at_most(self, other: Fraction) -> bool
        ensures { result ≡ at_most (ratio_of self) (ratio_of other) }
    {
        scaled(self, other) <= scaled(other, self)
    }

    // Whether self = other.
    pub fn level(self, other: Fraction) -> bool
        ensures { result ≡ level (ratio_of self) (ratio_of other) }
    {
        self.at_most(other) && other.at_most(self)
    }
}
