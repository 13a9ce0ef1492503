//! The figure of whatever a zone chart holds has sound nodes, with the root last.
ghost use Rattle.std.specs.Prelude.{◌≡◌, true, map};
ghost use Rattle.std.specs.List.{AllByRecursion};
ghost use Rattle.geometry.specs.Edge.{is_edge};
ghost use Rattle.geometry.specs.Held.{raw_of};

use crate::chart::ZoneChart;
use calls::drawn::DrawnChart;
use geometry::edge::Edge;

impl DrawnChart for ZoneChart {
    fn show_drawn(&self) {
        read_numbers(self.register.edges())
    }
}

/// Reads every number and every zone, by which they are known to be in range.
fn read_numbers(edges: &[Edge])
    ensures { AllByRecursion (λ r. is_edge r ≡ true) (map raw_of edges.now) }
{
    for edge in edges {
        let _number = edge.record_number();
        let _zone = edge.zone();
    }
}
