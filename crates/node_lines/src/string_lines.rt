//! The lines of strings.
ghost use Rattle.std.specs.Prelude.{◌≡◌, ◌++◌, codes, OnOk};
ghost use Rattle.reader.specs.Reading.{position_of};
ghost use Rattle.reader.specs.Views.{seen_in};
ghost use Rattle.script.specs.Growth.{Appended, Grown};
ghost use Rattle.script.specs.Lines.{ended};
ghost use Rattle.node_lines.specs.StringLines.{all_string_lines, at_place, digests_shown, line_of_fault, line_of_parts, line_of_string, numbers_shown, of_kind_number, printed_strings, words_of_fault};

use crate::append::{append_after, append_numbered};
use crate::next_string::{StringFault, next_string};
use reader::{NodeView, Reader};
use refusal::Refusal;
use script::append::append_text;
use script::reply::Reply;
use script::write::{write_line, write_reply};
use std::alloc::AllocError;

#[tactic(auto, using(crate::proofs::Showing::after_text_of))]
fn append_numbers(out: &mut Vec<u8>, bytes: &[u8]) -> Result<(), AllocError>
    ensures { Grown out.old (numbers_shown bytes.now) result out.new }
{
    let (words, _) = bytes.as_chunks::<4>();
    append_after(out, b", numbers", words)
}

// One function for numbers and digests would have to ask that the size of a part is not 0, and would be no shorter.
fn append_digests(out: &mut Vec<u8>, bytes: &[u8]) -> Result<(), AllocError>
    ensures { Grown out.old (digests_shown bytes.now) result out.new }
{
    let (digests, _) = bytes.as_chunks::<32>();
    append_after(out, b", digests", digests)
}

fn append_place(out: &mut Vec<u8>, place: usize) -> Result<(), AllocError>
    ensures { Grown out.old (at_place place) result out.new }
{
    append_numbered(out, b"at ", place)
}

/// The number of a kind as it stands in the bytes, which need not be one of the seven.
fn append_kind(out: &mut Vec<u8>, kind: u32) -> Result<(), AllocError>
    ensures { Grown out.old (of_kind_number kind) result out.new }
{
    append_numbered(out, b": kind ", kind)
}

fn append_string(
    out: &mut Vec<u8>,
    place: usize,
    // As it stands in the bytes, which is what the line shows.
    kind: u32,
    numbers: &[u8],
    successors: &[u8],
) -> Result<(), AllocError>
    ensures { Grown out.old (line_of_parts place kind numbers.now successors.now) result out.new }
{
    append_place(out, place)?;
    append_kind(out, kind)?;
    append_numbers(out, numbers)?;
    append_digests(out, successors)
}

/// A number that stands for no kind.
fn append_unknown(out: &mut Vec<u8>, kind: u32) -> Result<(), AllocError>
    ensures { Grown out.old (of_kind_number kind ++ codes " is not known") result out.new }
{
    append_kind(out, kind)?;
    append_text(out, b" is not known")
}

fn append_fault_words(out: &mut Vec<u8>, fault: StringFault) -> Result<(), AllocError>
    ensures { Grown out.old (words_of_fault fault) result out.new }
{
    match fault {
        StringFault::CutShort => append_text(out, b": the bytes end inside a string"),
        StringFault::KindNotKnown(kind) => append_unknown(out, kind),
    }
}

fn append_fault(out: &mut Vec<u8>, place: usize, fault: StringFault) -> Result<(), AllocError>
    ensures { Grown out.old (line_of_fault place fault) result out.new }
{
    append_place(out, place)?;
    append_fault_words(out, fault)
}

// The line takes the view's parts: a closure that captures a view, which has a lifetime, tells its caller nothing.
fn write_string_line(out: &mut Vec<u8>, view: &NodeView) -> Result<(), AllocError>
    ensures { Appended out.old (ended (line_of_string (seen_in view.now))) result out.new }
{
    let (place, kind) = (view.begins(), view.kind());
    let (numbers, successors) = (view.number_bytes(), view.successor_bytes());
    write_line(
        out,
        |out| append_string(out, place, kind, numbers, successors),
    )
}

/// Puts the lines of the strings from the reader's place on after what is written.
fn write_from(out: &mut Vec<u8>, reader: &mut Reader) -> Result<(), AllocError>
    ensures { OnOk result (out.new.items ≡ out.old.items ++ all_string_lines (position_of reader.old)) }
{
    while reader.finish().is_err() {
        let place = reader.place();
        match next_string(reader) {
            Ok(view) => write_string_line(out, &view)?,
            Err(fault) => return write_line(out, |out| append_fault(out, place, fault)),
        }
    }
    Ok(())
}

/// Puts the lines of the strings in bytes after what is written, or that the bytes are too many.
pub fn write_strings(out: &mut Vec<u8>, bytes: &[u8]) -> Result<(), AllocError>
    ensures { OnOk result (out.new.items ≡ out.old.items ++ printed_strings bytes.now) }
{
    match Reader::new(bytes) {
        Ok(mut reader) => write_from(out, &mut reader),
        Err(_) => write_reply(out, Reply::Refused(Refusal::ProofTooLong)),
    }
}
