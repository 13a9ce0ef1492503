//! Edges put in and taken out. A refusal changes nothing.
ghost use Rattle.std.specs.Prelude.{◌≡◌, map};
ghost use Rattle.records.specs.Held.{put_in, taken_out, remove_refusal};
ghost use Rattle.records.specs.Outcome.{answered, unless_refused};
ghost use Rattle.geometry.specs.Held.{raw_of};
ghost use Rattle.zones.specs.Edges.{add_refusal, conflicts_with_any, number_of};
ghost use Rattle.zones.specs.Register.{held};

use super::ZoneRegister;
use geometry::edge::Edge;
use records::numbered::{place_of, take_out_of_run};
use records::raw::EdgeRecord;
use refusal::Refusal;

/// How many edges a register has room for.
const ROOM: usize = 64;

impl ZoneRegister {
    pub fn add(&mut self, from: EdgeRecord) -> Result<(), Refusal>
        ensures answer { result ≡ answered (add_refusal (held self.old) from) tt }
        ensures after { held self.new ≡ unless_refused (add_refusal (held self.old) from) (put_in number_of from (held self.old)) (held self.old) }
    {
        let Some(edge) = Edge::new(from) else {
            return Err(Refusal::FieldOutOfRange);
        };
        if place_of(self.edges.as_slice(), from.number).is_some() {
            return Err(Refusal::NumberHeld);
        }
        if self.len() >= ROOM {
            return Err(Refusal::RegisterFull);
        }
        if self.has_conflict(&edge) {
            return Err(Refusal::EdgeConflict);
        }
        match self.edges.insert(edge) {
            Ok(()) => Ok(()),
            Err(_) => unreachable(),
        }
    }

    /// Whether an edge conflicts with a held one.
    fn has_conflict(&self, edge: &Edge) -> bool
        ensures { result ≡ conflicts_with_any (raw_of edge.now) (held self.now) }
    {
        self.edges().iter().any(|other| edge.conflicts_with(other))
    }

    pub fn remove(&mut self, number: i64) -> Result<(), Refusal>
        ensures answer { result ≡ answered (remove_refusal number_of (held self.old) number) tt }
        ensures after { held self.new ≡ unless_refused (remove_refusal number_of (held self.old) number) (taken_out number_of number (held self.old)) (held self.old) }
    {
        take_out_of_run(&mut self.edges, number)
    }
}
