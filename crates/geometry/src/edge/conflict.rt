// Which edges conflict.
ghost use Rattle.std.specs.Prelude.{◌≡◌};
ghost use Rattle.geometry.specs.Conflict.{rise, touch_or_cross, west_limit, east_limit, conflict};
ghost use Rattle.geometry.specs.Held.{raw_of};

use super::Edge;
use records::coordinate::Coordinate;

// Whether two differences of height are both zero or of opposite signs.
fn touch_or_cross(west: i64, east: i64) -> bool
    ensures { result ≡ touch_or_cross west east }
{
    west == 0 && east == 0 || west < 0 && east > 0 || west > 0 && east < 0
}

impl Edge {
    // Where the stretch of x that both edges span begins.
    fn west_limit(&self, other: &Edge) -> Coordinate
        ensures { result.value ≡ west_limit (raw_of self.now) (raw_of other.now) }
    {
        self.x1.max(other.x1)
    }

    // Where it ends.
    fn east_limit(&self, other: &Edge) -> Coordinate
        ensures { result.value ≡ east_limit (raw_of self.now) (raw_of other.now) }
    {
        self.x2.min(other.x2)
    }

    // How far self stands above the other at x, by sign.
    fn rise(&self, other: &Edge, x: Coordinate) -> i64
        ensures { result ≡ rise (raw_of self.now) (raw_of other.now) x.value }
    {
        self.height_at(x).difference(other.height_at(x))
    }

    // Whether the edges share a stretch of x and their heights agree at both its limits, or change order between them.
    pub fn conflicts_with(&self, other: &Edge) -> bool
        ensures { result ≡ conflict (raw_of self.now) (raw_of other.now) }
    {
        let west = self.west_limit(other);
        let east = self.east_limit(other);
        west < east && touch_or_cross(self.rise(other, west), self.rise(other, east))
    }
}
