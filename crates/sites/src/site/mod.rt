// A site. No value of this type has a field out of range.
use records::coordinate::Coordinate;
use records::record_number::RecordNumber;

pub mod fields;
pub mod number;

#[derive(Clone, Copy)]
pub struct Site {
    number: RecordNumber,
    x: Coordinate,
    y: Coordinate,
}
