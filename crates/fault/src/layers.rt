//! The layers above the reader, and what each reports. The reader's own report stands with it.

ghost use Rattle.std.specs.Prelude.{◌≡◌, Some};
ghost use Rattle.fault.specs.Layers.{name_of_layer};

use std::fmt;

#[derive(Clone, Copy, Debug, PartialEq, Eq)]
pub enum Layer {
    Reader,
    Hash,
    Search,
    Answer,
}

impl Layer {
    /// Its name, as the program prints it.
    pub fn name(self) -> &'static str
        ensures { result.now ≡ name_of_layer self }
    {
        match self {
            Layer::Reader => "reader",
            Layer::Hash => "hash",
            Layer::Search => "search",
            Layer::Answer => "answer",
        }
    }
}

impl fmt::Display for Layer {
    ghost output = { λ layer. Some (name_of_layer layer) };

    fn fmt<W: fmt::Write>(&self, f: &mut fmt::Formatter<W>) -> fmt::Result {
        f.write_str(self.name())
    }
}

/// One case, in a type of its own as every layer's faults are, for `?` to carry up.
#[derive(Clone, Copy, Debug, PartialEq, Eq)]
pub enum HashFault {
    /// The string has not the digest looked for.
    DigestMismatch,
}

#[derive(Clone, Copy, Debug, PartialEq, Eq)]
pub enum SearchFault {
    QuestionOutOfBounds,
    NoRootAdopted,
    /// The chart does not know this kind.
    KindNotKnown(u32),
    /// The numbers of a string of this kind are unfit.
    NumbersUnfit(u32),
    StackFull,
}

#[derive(Clone, Copy, Debug, PartialEq, Eq)]
pub enum AnswerFault {
    /// One more number than this many places.
    BufferFull(usize),
}
