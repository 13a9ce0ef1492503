//! What the question mark turns an error of a layer into.

ghost use Rattle.std.specs.Prelude.{◌≡◌};
ghost use Rattle.fault.specs.Carrying.{from_answer_at_string, from_hash_at_string, from_reader, from_reader_at_step, from_search, from_search_at_string};

use crate::layers::{AnswerFault, HashFault, SearchFault};
use crate::report::{Cause, Fault};
use crate::stamps::{AtStep, AtString};
use reader::ReaderFault;

impl From<ReaderFault> for Fault {
    ghost from_gives = { λ e f. f ≡ from_reader e };

    fn from(e: ReaderFault) -> Fault {
        Fault::at(Cause::Reader(e), 0, e.place())
    }
}

impl From<SearchFault> for Fault {
    ghost from_gives = { λ e f. f ≡ from_search e };

    fn from(e: SearchFault) -> Fault {
        Fault::at(Cause::Search(e), 0, 0)
    }
}

impl From<AtStep<ReaderFault>> for Fault {
    ghost from_gives = { λ e f. f ≡ from_reader_at_step e };

    fn from(e: AtStep<ReaderFault>) -> Fault {
        Fault::at(Cause::Reader(e.fault), e.step, e.fault.place())
    }
}

// One impl for whatever layer would need an impl for each of them again, to make its cause.
impl From<AtString<HashFault>> for Fault {
    ghost from_gives = { λ e f. f ≡ from_hash_at_string e };

    fn from(e: AtString<HashFault>) -> Fault {
        Fault::at(Cause::Hash(e.fault), e.step, e.begins)
    }
}

impl From<AtString<SearchFault>> for Fault {
    ghost from_gives = { λ e f. f ≡ from_search_at_string e };

    fn from(e: AtString<SearchFault>) -> Fault {
        Fault::at(Cause::Search(e.fault), e.step, e.begins)
    }
}

impl From<AtString<AnswerFault>> for Fault {
    ghost from_gives = { λ e f. f ≡ from_answer_at_string e };

    fn from(e: AtString<AnswerFault>) -> Fault {
        Fault::at(Cause::Answer(e.fault), e.step, e.begins)
    }
}
