//! The report of a refused check.

ghost use Rattle.std.specs.Prelude.{◌≡◌};
ghost use Rattle.fault.specs.Carrying.{fault_at};
ghost use Rattle.fault.specs.Layers.{EachLayerHasItsNumbers, fault_number, layer_of, refusal_of};

use crate::layers::{AnswerFault, HashFault, Layer, SearchFault};
use reader::ReaderFault;
use refusal::Refusal;

/// The error of the layer that refused.
#[derive(Clone, Copy, Debug, PartialEq, Eq)]
pub enum Cause {
    Reader(ReaderFault),
    Hash(HashFault),
    Search(SearchFault),
    Answer(AnswerFault),
}

/// That error, the step, and the byte place. Steps count the strings from 1; before the first
/// string, step and place are 0.
#[derive(Clone, Copy, Debug, PartialEq, Eq)]
pub struct Fault {
    cause: Cause,
    step: usize,
    place: usize,
}

impl Fault {
    pub(crate) fn at(cause: Cause, step: usize, place: usize) -> Fault
        ensures { result ≡ fault_at step place cause }
    {
        Fault { cause, step, place }
    }

    pub fn cause(self) -> Cause
        ensures { result ≡ self.cause }
    {
        self.cause
    }

    /// Its entry in the table of refusals.
    pub fn refusal(self) -> Refusal
        ensures { result ≡ refusal_of self.cause }
    {
        match self.cause {
            Cause::Reader(ReaderFault::ProofTooLong) => Refusal::ProofTooLong,
            Cause::Reader(ReaderFault::KindCutShort(_) | ReaderFault::RestCutShort(_)) => {
                Refusal::StringCutShort
            }
            Cause::Reader(ReaderFault::BytesLeftOver(_)) => Refusal::BytesLeftOver,
            Cause::Hash(HashFault::DigestMismatch) => Refusal::DigestMismatch,
            Cause::Search(SearchFault::QuestionOutOfBounds) => Refusal::QuestionOutOfBounds,
            Cause::Search(SearchFault::NoRootAdopted) => Refusal::NoRootAdopted,
            Cause::Search(SearchFault::KindNotKnown(_)) => Refusal::KindNotKnown,
            Cause::Search(SearchFault::NumbersUnfit(_)) => Refusal::NumbersUnfit,
            Cause::Search(SearchFault::StackFull) => Refusal::StackFull,
            Cause::Answer(AnswerFault::BufferFull(_)) => Refusal::AnswerBufferFull,
        }
    }

    pub fn number(self) -> u8
        ensures { result ≡ fault_number self.cause }
    {
        u8::from(self.refusal())
    }

    pub fn layer(self) -> Layer
        ensures { result ≡ layer_of self.cause }
    {
        match self.cause {
            Cause::Reader(_) => Layer::Reader,
            Cause::Hash(_) => Layer::Hash,
            Cause::Search(_) => Layer::Search,
            Cause::Answer(_) => Layer::Answer,
        }
    }

    pub fn step(self) -> usize
        ensures { result ≡ self.step }
    {
        self.step
    }

    pub fn place(self) -> usize
        ensures { result ≡ self.place }
    {
        self.place
    }
}

pub fn each_layer_has_its_numbers() -> u8
    ensures { EachLayerHasItsNumbers }
{
    0
}
