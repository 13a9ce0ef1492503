//! Writing the lines that answer the calls. Each line has its writer, whose contract names the line.
ghost use Rattle.std.specs.Prelude.{◌++◌};
ghost use Rattle.hex_text.specs.Hex.{hex_of};
ghost use Rattle.script.specs.Growth.{Appended};
ghost use Rattle.script.specs.Lines.{ended};
ghost use Rattle.call_commands.specs.Lines.{line_of_adopted, line_of_asked, line_of_checked, line_of_comparison, line_of_fault, line_of_proof, line_of_published};

use crate::append::{
    append_asked, append_checked, append_comparison, append_fault, append_hex, append_published,
};
use calls::outcomes::{Checked, Comparison};
use fault::Fault;
use script::command::ChartKind;
use script::write::write_line;
use std::alloc::AllocError;

/// How many records a publish wrote, and the root.
pub fn write_published(out: &mut Vec<u8>, count: usize, root: &[u8]) -> Result<(), AllocError>
    ensures { Appended out.old (ended (line_of_published count root.now)) result out.new }
{
    write_line(out, |out| append_published(out, count, root))
}

/// A text, and bytes in hex.
fn write_hex(out: &mut Vec<u8>, text: &[u8], bytes: &[u8]) -> Result<(), AllocError>
    ensures { Appended out.old (ended (text.now ++ hex_of bytes.now)) result out.new }
{
    write_line(out, |out| append_hex(out, text, bytes))
}

pub fn write_adopted(out: &mut Vec<u8>, root: &[u8]) -> Result<(), AllocError>
    ensures { Appended out.old (ended (line_of_adopted root.now)) result out.new }
{
    write_hex(out, b"adopted ", root)
}

pub fn write_proof(out: &mut Vec<u8>, proof: &[u8]) -> Result<(), AllocError>
    ensures { Appended out.old (ended (line_of_proof proof.now)) result out.new }
{
    write_hex(out, b"proof ", proof)
}

/// The numbers that a check accepted, and how many strings and bytes there were.
// These stay apart: a closure that captures a struct with a lifetime tells its caller nothing.
pub fn write_checked(
    out: &mut Vec<u8>,
    kind: ChartKind,
    numbers: &[u16],
    checked: Checked,
) -> Result<(), AllocError>
    ensures { Appended out.old (ended (line_of_checked kind numbers.now checked)) result out.new }
{
    write_line(out, |out| append_checked(out, kind, numbers, checked))
}

pub fn write_fault(out: &mut Vec<u8>, fault: Fault) -> Result<(), AllocError>
    ensures { Appended out.old (ended (line_of_fault fault)) result out.new }
{
    write_line(out, |out| append_fault(out, fault))
}

pub fn write_comparison(out: &mut Vec<u8>, comparison: Comparison) -> Result<(), AllocError>
    ensures { Appended out.old (ended (line_of_comparison comparison)) result out.new }
{
    write_line(out, |out| append_comparison(out, comparison))
}

/// What check accepted, then what cross-check answered.
pub fn write_asked(
    out: &mut Vec<u8>,
    kind: ChartKind,
    numbers: &[u16],
    checked: Checked,
    comparison: Comparison,
) -> Result<(), AllocError>
    ensures { Appended out.old (ended (line_of_asked kind numbers.now checked comparison)) result out.new }
{
    write_line(
        out,
        |out| append_asked(out, kind, numbers, checked, comparison),
    )
}
