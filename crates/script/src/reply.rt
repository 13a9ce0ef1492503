//! What the program answers, a line each.
use crate::command::{ChartKind, HashName};
use records::raw::{EdgeRecord, SiteRecord};
use refusal::Refusal;

/// The answers of a fixed size.
#[derive(Clone, Copy)]
pub enum Reply {
    Begun { kind: ChartKind, hash: HashName },
    Added(i64),
    Removed(i64),
    /// The zone that a point lies in.
    InZone(u16),
    /// A held record.
    Edge(EdgeRecord),
    Place(SiteRecord),
    Refused(Refusal),
}
