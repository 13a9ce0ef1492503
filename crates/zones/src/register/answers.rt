//! The zone of a point, by looking at every edge in turn.
ghost use Rattle.std.specs.Prelude.{◌≡◌, map, Some};
ghost use Rattle.std.specs.Option.{option_map};
ghost use Rattle.records.specs.Outcome.{answered};
ghost use Rattle.geometry.specs.Held.{raw_of};
ghost use Rattle.slabs.specs.Topmost.{is_under, higher, topmost, under, zone_at};
ghost use Rattle.zones.specs.Question.{question_refusal, zone_in};
ghost use Rattle.zones.specs.Register.{held};

use super::ZoneRegister;
use geometry::edge::Edge;
use geometry::fraction::Fraction;
use records::coordinate::Coordinate;
use records::position::Position;
use records::raw::Point;
use records::zone::Zone;
use refusal::Refusal;

impl ZoneRegister {
    pub fn zone_of(&self, question: &Point) -> Result<Zone, Refusal>
        ensures { zone_in result ≡ answered (question_refusal question.now) (zone_at (held self.now) question.now.x question.now.y) }
    {
        let Some(position) = Position::new(question) else {
            return Err(Refusal::QuestionOutOfBounds);
        };
        Ok(self.topmost_under(position).map_or(0, |edge| edge.zone()))
    }

    /// Of the edges under a point the one of greatest height, and among equal heights of greatest slope.
    fn topmost_under(&self, position: Position) -> Option<Edge>
        ensures { option_map raw_of result ≡ topmost position.x.value (under position.x.value position.y.value (held self.now)) }
    {
        let mut best = None;
        for edge in self.edges() {
            if is_under(edge, position) {
                best = Some(higher_of(best, *edge, position.x));
            }
        }
        best
    }
}

/// Whether an edge covers a point's x with a height there of at most the point's y.
fn is_under(edge: &Edge, position: Position) -> bool
    ensures { result ≡ is_under position.x.value position.y.value (raw_of edge.now) }
{
    edge.covers(position.x)
        && edge
            .height_at(position.x)
            .at_most(Fraction::whole(position.y))
}

/// The best so far, or one edge more if the best lies under it.
fn higher_of(best: Option<Edge>, edge: Edge, x: Coordinate) -> Edge
    ensures { Some (raw_of result) ≡ higher x.value (option_map raw_of best) (raw_of edge) }
{
    best.filter(|before| !before.lies_under(&edge, x))
        .unwrap_or(edge)
}
