//! What a line can ask of the calls.
use records::raw::{Point, Rectangle};

/// A point is asked of a zone chart, a rectangle of a site chart.
#[derive(Clone, Copy)]
pub enum Question {
    At(Point),
    Within(Rectangle),
}

/// A command. The parts of the line that it holds are hex.
#[derive(Clone, Copy)]
pub enum CallCommand<'a> {
    /// With a sheet of so many records.
    Publish {
        room: usize,
    },
    AdoptLatest,
    /// The root of an accepted publish, counted from 1.
    AdoptNth(i64),
    AdoptRoot {
        root: &'a [u8],
    },
    /// With a buffer of so many bytes.
    Prove {
        question: Question,
        room: usize,
    },
    /// With so many places for answers.
    Check {
        question: Question,
        proof: &'a [u8],
        room: usize,
    },
    CrossCheck {
        question: Question,
        proof: &'a [u8],
    },
    Ask(Question),
}
