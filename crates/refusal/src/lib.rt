//! The table of refusals: why a call was turned down, one case for each reason.
#![tactic(auto)]

ghost use Rattle.std.specs.Prelude.{◌≡◌, Some};
ghost use Rattle.refusal.specs.Table.{number_of, words_of};

use std::error::Error;
use std::fmt;

#[derive(Clone, Copy, Debug, PartialEq, Eq)]
pub enum Refusal {
    FieldOutOfRange,
    NumberHeld,
    EdgeConflict,
    RegisterFull,
    NumberNotHeld,
    SheetTooSmall,
    SheetUnsound,
    ProofBufferFull,
    QuestionOutOfBounds,
    NoRootAdopted,
    RootLength,
    ProofTooLong,
    StringCutShort,
    KindNotKnown,
    DigestMismatch,
    NumbersUnfit,
    AnswerBufferFull,
    StackFull,
    BytesLeftOver,
    MessageTooLong,
}

/// Its number in the table, 1 to 20.
impl From<Refusal> for u8 {
    ghost from_gives = { λ refusal number. number ≡ number_of refusal };

    fn from(refusal: Refusal) -> u8 {
        match refusal {
            Refusal::FieldOutOfRange => 1,
            Refusal::NumberHeld => 2,
            Refusal::EdgeConflict => 3,
            Refusal::RegisterFull => 4,
            Refusal::NumberNotHeld => 5,
            Refusal::SheetTooSmall => 6,
            Refusal::SheetUnsound => 7,
            Refusal::ProofBufferFull => 8,
            Refusal::QuestionOutOfBounds => 9,
            Refusal::NoRootAdopted => 10,
            Refusal::RootLength => 11,
            Refusal::ProofTooLong => 12,
            Refusal::StringCutShort => 13,
            Refusal::KindNotKnown => 14,
            Refusal::DigestMismatch => 15,
            Refusal::NumbersUnfit => 16,
            Refusal::AnswerBufferFull => 17,
            Refusal::StackFull => 18,
            Refusal::BytesLeftOver => 19,
            Refusal::MessageTooLong => 20,
        }
    }
}

impl Refusal {
    /// The reason in words, as the program prints it.
    pub fn words(self) -> &'static str
        ensures { result.now ≡ words_of self }
    {
        match self {
            Refusal::FieldOutOfRange => {
                "a field is out of its range, or the left end is not west of the right end"
            }
            Refusal::NumberHeld => "the number is held already",
            Refusal::EdgeConflict => "the edge conflicts with a held one",
            Refusal::RegisterFull => "the register is full",
            Refusal::NumberNotHeld => "the number is not held",
            Refusal::SheetTooSmall => "the figure has more nodes than the sheet has usable records",
            Refusal::SheetUnsound => "the count or a record of the sheet is not sound",
            Refusal::ProofBufferFull => "the next string does not fit in the buffer",
            Refusal::QuestionOutOfBounds => {
                "a coordinate of the question is out of range, or its limits run backward"
            }
            Refusal::NoRootAdopted => "no root is adopted",
            Refusal::RootLength => "the root is not 32 bytes long",
            Refusal::ProofTooLong => "the proof is over 65535 bytes long",
            Refusal::StringCutShort => "the bytes end inside a string",
            Refusal::KindNotKnown => "the kind is not known to this chart",
            Refusal::DigestMismatch => "the string has not the digest looked for",
            Refusal::NumbersUnfit => "the numbers of the string are unfit",
            Refusal::AnswerBufferFull => "there are more numbers than the answer buffer holds",
            Refusal::StackFull => "more than 64 nodes are waiting",
            Refusal::BytesLeftOver => "bytes remain and nothing is waiting",
            Refusal::MessageTooLong => "the message is over 65535 bytes long",
        }
    }
}

impl fmt::Display for Refusal {
    ghost output = { λ refusal. Some (words_of refusal) };

    fn fmt<W: fmt::Write>(&self, f: &mut fmt::Formatter<W>) -> fmt::Result {
        f.write_str(self.words())
    }
}

impl Error for Refusal {}
