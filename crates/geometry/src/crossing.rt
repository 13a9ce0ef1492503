// An edge where a line from south to north crosses it, at x.
use crate::edge::Edge;
use records::coordinate::Coordinate;

pub mod order;

#[derive(Clone, Copy)]
pub struct Crossing {
    pub edge: Edge,
    pub x: Coordinate,
}
