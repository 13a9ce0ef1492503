//! The register of edges, at most 64, in rising number. Only its own calls make or change one.
use geometry::edge::Edge;
use slices::Run;

pub mod answers;
pub mod changes;
pub mod contents;

// The register of sites is like it but for the test for conflicts: each call of both is a line or two over a run, and its
// contract speaks of its own records, so one type for both would be no plainer.
#[derive(Clone, Copy)]
pub struct ZoneRegister {
    edges: Run<Edge, 64>,
}
