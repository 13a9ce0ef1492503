//! A fresh register, and what a register holds.
ghost use Rattle.std.specs.Prelude.{◌≡◌, ◌≤◌, [], map, length};
ghost use Rattle.std.specs.List.{slice_get};
ghost use Rattle.geometry.specs.Held.{raw_of};
ghost use Rattle.zones.specs.Register.{held};

use super::ZoneRegister;
use geometry::edge::Edge;
use records::raw::EdgeRecord;
use slices::Run;

impl ZoneRegister {
    /// A fresh register holds nothing.
    pub fn new() -> ZoneRegister
        ensures { held result ≡ [] }
    {
        ZoneRegister {
            edges: Run::new(Edge::filler()),
        }
    }

    pub fn len(&self) -> usize
        ensures { result ≡ length (held self.now) }
    {
        self.edges.len()
    }

    /// The record at a place, counted from 0 in rising number.
    pub fn record(&self, place: usize) -> Option<EdgeRecord>
        ensures { result ≡ slice_get (held self.now) place }
    {
        self.edges().get(place).map(|edge| edge.raw())
    }

    /// The edges held, in rising number.
    pub fn edges(&self) -> &[Edge]
        ensures held { map raw_of result.now ≡ held self.now }
        ensures few { length result.now ≤ 64 }
    {
        self.edges.as_slice()
    }
}
