//! What a caller hands over. Every field is wide enough to be out of its range.

/// A boundary edge from its left end (x1, y1) to its right end (x2, y2), with the zone above it.
#[derive(Clone, Copy)]
pub struct EdgeRecord {
    pub number: i64,
    pub x1: i64,
    pub y1: i64,
    pub x2: i64,
    pub y2: i64,
    pub zone: i64,
}

#[derive(Clone, Copy)]
pub struct SiteRecord {
    pub number: i64,
    pub x: i64,
    pub y: i64,
}

/// The question to a zone chart.
#[derive(Clone, Copy)]
pub struct Point {
    pub x: i64,
    pub y: i64,
}

/// The question to a site chart: x from west to east and y from south to north, sides included.
#[derive(Clone, Copy)]
pub struct Rectangle {
    pub west: i64,
    pub east: i64,
    pub south: i64,
    pub north: i64,
}
