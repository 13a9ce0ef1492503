//! A coordinate in whole decimetres. No value of this type is out of range.
ghost use Rattle.std.specs.Prelude.{◌≡◌, pos, negsuc, ◌≤ℤ◌, ◌-ℤ◌};
ghost use Rattle.std.specs.Option.{option_map};
ghost use Rattle.records.specs.Range.{is_coordinate, kept_by};

use crate::range::is_within;
use std::ops::Sub;

#[derive(Clone, Copy, PartialEq, Eq, PartialOrd, Ord)]
pub struct Coordinate {
    value: i32,
    ghost least: { negsuc 499999 ≤ℤ value },
    ghost greatest: { value ≤ℤ pos 500000 },
}

/// Whether a value is in range for a coordinate.
pub fn is_coordinate(value: i64) -> bool
    ensures { result ≡ is_coordinate value }
{
    is_within(-500_000, 500_000, value)
}

impl Coordinate {
    pub fn new(value: i64) -> Option<Coordinate>
        ensures { option_map (λ c. c.value) result ≡ kept_by is_coordinate value }
    {
        if !is_coordinate(value) {
            return None;
        }
        Some(Coordinate {
            // In range, so 32 bits hold it.
            value: value as i32,
        })
    }

    pub fn zero() -> Coordinate
        ensures { result.value ≡ pos 0 }
    {
        Coordinate { value: 0 }
    }

    pub fn one() -> Coordinate
        ensures { result.value ≡ pos 1 }
    {
        Coordinate { value: 1 }
    }

    pub fn value(self) -> i32
        ensures { result ≡ self.value }
    {
        self.value
    }
}

/// How far east or north one coordinate is of another.
impl Sub for Coordinate {
    type Output = i64;

    ghost sub_gives = { λ to from offset. offset ≡ to.value -ℤ from.value };

    fn sub(self, from: Coordinate) -> i64 {
        i64::from(self.value) - i64::from(from.value)
    }
}
