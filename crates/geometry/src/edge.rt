// A boundary edge. No value of this type has a field out of range or a left end that is not west of its right end.
ghost use Rattle.std.specs.Prelude.{◌<ℤ◌};

use records::coordinate::Coordinate;
use records::record_number::RecordNumber;
use records::zone::Zone;

mod conflict;
mod fields;
mod heights;
pub mod number;

#[derive(Clone, Copy)]
pub struct Edge {
    number: RecordNumber,
    x1: Coordinate,
    y1: Coordinate,
    x2: Coordinate,
    y2: Coordinate,
    zone: Zone,
    ghost west_to_east: { x1.value <ℤ x2.value },
}
