//! What a command line can ask for.
use records::raw::{EdgeRecord, Point, Rectangle, SiteRecord};

#[derive(Clone, Copy, Debug, PartialEq, Eq)]
pub enum ChartKind {
    Zone,
    Site,
}

#[derive(Clone, Copy, Debug, PartialEq, Eq)]
pub enum HashName {
    Sha256,
    Blake2s,
}

#[derive(Clone, Copy)]
pub enum Command {
    Begin { kind: ChartKind, hash: HashName },
    AddEdge(EdgeRecord),
    AddSite(SiteRecord),
    Remove(i64),
    AnswerZone(Point),
    AnswerSites(Rectangle),
    List,
    /// A line without words.
    Blank,
}
