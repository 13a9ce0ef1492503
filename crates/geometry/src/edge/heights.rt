// Where an edge covers, its height and its slope.
ghost use Rattle.std.specs.Prelude.{◌≡◌};
ghost use Rattle.geometry.specs.Edge.{covers, height, slope, lies_under};
ghost use Rattle.geometry.specs.Held.{raw_of, ratio_of};

use super::Edge;
use crate::fraction::Fraction;
use records::coordinate::Coordinate;

impl Edge {
    // Whether x1 ≤ x < x2.
    pub fn covers(&self, x: Coordinate) -> bool
        ensures { result ≡ covers (raw_of self.now) x.value }
    {
        self.x1 <= x && x < self.x2
    }

    // The numerator of the height at x, over the width of the edge.
    fn numerator_at(&self, x: Coordinate) -> i64
        ensures { result ≡ (height (raw_of self.now) x.value).over }
    {
        let base = i64::from(self.y1.value()) * (self.x2 - self.x1);
        let climb = (self.y2 - self.y1) * (x - self.x1);
        base + climb
    }

    // The height of the line through both ends at x, exactly.
    pub fn height_at(&self, x: Coordinate) -> Fraction
        ensures { ratio_of result ≡ height (raw_of self.now) x.value }
    {
        Fraction::of_parts(self.numerator_at(x), self.x2 - self.x1)
    }

    // The climb over the width, exactly.
    pub fn slope(&self) -> Fraction
        ensures { ratio_of result ≡ slope (raw_of self.now) }
    {
        Fraction::of_parts(self.y2 - self.y1, self.x2 - self.x1)
    }

    // Whether the edge is lower at x, or as high and less steep.
    pub fn lies_under(&self, other: &Edge, x: Coordinate) -> bool
        ensures { result ≡ lies_under x.value (raw_of self.now) (raw_of other.now) }
    {
        let height = self.height_at(x);
        let limit = other.height_at(x);
        height.less(limit) || height.level(limit) && self.slope().less(other.slope())
    }
}
