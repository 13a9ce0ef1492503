//! The words of a line, one after another, as parts of the line.
ghost use Rattle.std.specs.Prelude.{◌≡◌, ◌<◌, ◌≤◌, false, [], ◌∷◌, length, take, drop, slice_index};
ghost use Rattle.std.specs.Option.{option_map};
ghost use Rattle.script.specs.Fields.{after_numbers, at_end, first_number, first_point, first_rectangle};
ghost use Rattle.script.specs.Words.{before_words, begins_comment, is_separator, words_of};

use crate::number::read_number;
use records::raw::{Point, Rectangle};

/// What is still to be read of a line.
#[derive(Drop)]
pub struct Words<'a> {
    rest: &'a [u8],
}

impl<'a> Words<'a> {
    pub fn new(line: &'a [u8]) -> Words<'a>
        ensures { result.rest.now ≡ line.now }
    {
        Words { rest: line }
    }

    pub fn next(&mut self) -> Option<&'a [u8]>
        ensures word { words_of self.old.rest.now ≡ before_words (option_map (λ w. w.now) result) (words_of self.new.rest.now) }
        ensures rest { words_of self.new.rest.now ≡ drop 1 (words_of self.old.rest.now) }
    {
        let rest = self.rest;
        let start = separators(rest);
        let from = &rest[start..];
        let len = word_length(from);
        if len == 0 {
            return None;
        }
        self.rest = &from[len..];
        Some(&from[0..len])
    }

    /// The next word as a number.
    pub fn number(&mut self) -> Option<i64>
        ensures value { option_map (λ z. (z, words_of self.new.rest.now)) result ≡ first_number (words_of self.old.rest.now) }
        ensures rest { words_of self.new.rest.now ≡ drop 1 (words_of self.old.rest.now) }
    {
        let word = self.next()?;
        read_number(word)
    }

    /// The next two words as a point. A word that is no number is the last one read.
    pub fn point(&mut self) -> Option<Point>
        ensures value { option_map (λ p. (p, words_of self.new.rest.now)) result ≡ first_point (words_of self.old.rest.now) }
        ensures rest { words_of self.new.rest.now ≡ after_numbers 2 (words_of self.old.rest.now) }
    {
        let x = self.number()?;
        let y = self.number()?;
        Some(Point { x, y })
    }

    /// The next four words as a rectangle. A word that is no number is the last one read.
    pub fn rectangle(&mut self) -> Option<Rectangle>
        ensures value { option_map (λ q. (q, words_of self.new.rest.now)) result ≡ first_rectangle (words_of self.old.rest.now) }
        ensures rest { words_of self.new.rest.now ≡ after_numbers 4 (words_of self.old.rest.now) }
    {
        let west = self.number()?;
        let east = self.number()?;
        let south = self.number()?;
        let north = self.number()?;
        Some(Rectangle {
            west,
            east,
            south,
            north,
        })
    }

    /// A value where no word is left, so that a reader stops at any other word by `?`.
    pub fn end(&mut self) -> Option<()>
        ensures ends { result ≡ at_end (words_of self.old.rest.now) tt }
        ensures rest { words_of self.new.rest.now ≡ drop 1 (words_of self.old.rest.now) }
    {
        match self.next() {
            Some(_) => None,
            None => Some(()),
        }
    }
}

/// How many separators a line begins with.
fn separators(line: &[u8]) -> usize
    ensures within { result ≤ length line.now }
    ensures skips { words_of line.now ≡ words_of (drop result line.now) }
    ensures stops { result < length line.now → is_separator (slice_index line.now result) ≡ false }
{
    line.iter()
        .position(|byte| !is_separator(*byte))
        .unwrap_or(line.len())
}

/// How long the word is that a line begins with, where it does not begin with a separator.
fn word_length(line: &[u8]) -> usize
    requires { 0 < length line.now → is_separator (slice_index line.now 0) ≡ false }
    ensures within { result ≤ length line.now }
    ensures none { result ≡ 0 → words_of line.now ≡ [] }
    ensures some { 0 < result → words_of line.now ≡ take result line.now ∷ words_of (drop result line.now) }
{
    line.iter()
        .position(|byte| is_separator(*byte) || begins_comment(*byte))
        .unwrap_or(line.len())
}

fn is_separator(byte: u8) -> bool
    ensures { result ≡ is_separator byte }
{
    byte == b' ' || byte == b'\t'
}

fn begins_comment(byte: u8) -> bool
    ensures { result ≡ begins_comment byte }
{
    byte == b'#'
}
