//! What the calls answer where they are accepted.

/// What a prove wrote.
#[derive(Clone, Copy, Debug, PartialEq, Eq)]
pub struct Proved {
    pub strings: usize,
    pub bytes: usize,
}

/// What a check read: how many numbers were emitted, and how many strings and bytes there were.
#[derive(Clone, Copy, Debug, PartialEq, Eq)]
pub struct Checked {
    pub numbers: usize,
    pub strings: usize,
    pub bytes: usize,
}

/// How a proof compares with what a sheet would prove. Both of the last name the record of the sheet and the byte of the proof
/// where the string begins that differs.
#[derive(Clone, Copy, Debug, PartialEq, Eq)]
pub enum Comparison {
    Same,
    Difference { place: usize, byte: usize },
    /// Two unequal strings with one digest.
    Clash { place: usize, byte: usize },
}
