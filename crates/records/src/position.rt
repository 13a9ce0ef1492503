//! A position: both of its coordinates are in range.
ghost use Rattle.std.specs.Prelude.{◌≡◌, if◌then◌else◌, Some, None};
ghost use Rattle.std.specs.Option.{option_map};
ghost use Rattle.records.specs.Positions.{is_position, point_of};

use crate::coordinate::Coordinate;
use crate::raw::Point;

#[derive(Clone, Copy)]
pub struct Position {
    pub x: Coordinate,
    pub y: Coordinate,
}

impl Position {
    /// The position of a point, or none where a coordinate is out of range.
    pub fn new(point: &Point) -> Option<Position>
        ensures { option_map point_of result ≡ (if is_position point.now then Some point.now else None) }
    {
        let x = Coordinate::new(point.x)?;
        let y = Coordinate::new(point.y)?;
        Some(Position { x, y })
    }
}
