// An edge made from a raw record, and read again.
ghost use Rattle.std.specs.Prelude.{◌≡◌, pos, if◌then◌else◌, Some, None};
ghost use Rattle.std.specs.Option.{option_map};
ghost use Rattle.geometry.specs.Edge.{is_edge, left_end, right_end};
ghost use Rattle.geometry.specs.Held.{raw_of};
ghost use Rattle.records.specs.Positions.{point_of};

use super::Edge;
use records::coordinate::Coordinate;
use records::position::Position;
use records::raw::EdgeRecord;
use records::record_number::RecordNumber;
use records::zone::{Zone, zone_number};

impl Edge {
    // The edge of a raw record, or none where a field is out of range or the left end is not west of the right end.
    pub fn new(raw: EdgeRecord) -> Option<Edge>
        ensures { option_map raw_of result ≡ (if is_edge raw then Some raw else None) }
    {
        let number = RecordNumber::new(raw.number)?;
        let x1 = Coordinate::new(raw.x1)?;
        let y1 = Coordinate::new(raw.y1)?;
        let x2 = Coordinate::new(raw.x2)?;
        let y2 = Coordinate::new(raw.y2)?;
        let zone = zone_number(raw.zone)?;
        if x1 >= x2 {
            return None;
        }
        Some(Edge {
            number,
            x1,
            y1,
            x2,
            y2,
            zone,
        })
    }

    /// What fills the places of a register that no edge is in.
    pub fn filler() -> Edge
        ensures { raw_of result ≡ record { number = pos 1; x1 = pos 0; y1 = pos 0; x2 = pos 1; y2 = pos 0; zone = pos 0 } }
    {
        Edge {
            number: RecordNumber::first(),
            x1: Coordinate::zero(),
            y1: Coordinate::zero(),
            x2: Coordinate::one(),
            y2: Coordinate::zero(),
            zone: 0,
        }
    }

    // The record that the edge was made from.
    pub fn raw(&self) -> EdgeRecord
        ensures { result ≡ raw_of self.now }
    {
        EdgeRecord {
            number: i64::from(self.number.value()),
            x1: i64::from(self.x1.value()),
            y1: i64::from(self.y1.value()),
            x2: i64::from(self.x2.value()),
            y2: i64::from(self.y2.value()),
            zone: i64::from(self.zone),
        }
    }

    // Its left end.
    pub fn left(&self) -> Position
        ensures { point_of result ≡ left_end (raw_of self.now) }
    {
        Position {
            x: self.x1,
            y: self.y1,
        }
    }

    // Its right end.
    pub fn right(&self) -> Position
        ensures { point_of result ≡ right_end (raw_of self.now) }
    {
        Position {
            x: self.x2,
            y: self.y2,
        }
    }

    pub fn record_number(&self) -> u16
        ensures { result ≡ self.now.number.value }
    {
        self.number.value()
    }

    pub fn zone(&self) -> Zone
        ensures { result ≡ self.now.zone }
    {
        self.zone
    }
}
