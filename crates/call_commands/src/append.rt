//! The texts of the lines that answer the calls, put at the end of what is written.
ghost use Rattle.std.specs.Prelude.{◌++◌};
ghost use Rattle.script.specs.Growth.{Grown};
ghost use Rattle.hex_text.specs.Hex.{hex_of};
ghost use Rattle.call_commands.specs.Lines.{at_record, counted, line_of_asked, line_of_checked, line_of_comparison, line_of_fault, line_of_numbers, line_of_published};

use calls::outcomes::{Checked, Comparison};
use fault::Fault;
use hex_text::encode::encode;
use script::append::{append_digits, append_fields, append_pair, append_sites, append_text};
use script::command::ChartKind;
use std::alloc::AllocError;

/// A text, and a count after a space.
fn append_counted(out: &mut Vec<u8>, text: &[u8], count: usize) -> Result<(), AllocError>
    ensures { Grown out.old (counted text.now count) result out.new }
{
    append_pair(out, text, b" ")?;
    append_digits(out, count)
}

/// A text, and bytes in hex.
pub(crate) fn append_hex(out: &mut Vec<u8>, text: &[u8], bytes: &[u8]) -> Result<(), AllocError>
    ensures { Grown out.old (text.now ++ hex_of bytes.now) result out.new }
{
    append_text(out, text)?;
    encode(bytes, out)
}

pub(crate) fn append_published(
    out: &mut Vec<u8>,
    count: usize,
    root: &[u8],
) -> Result<(), AllocError>
    ensures { Grown out.old (line_of_published count root.now) result out.new }
{
    append_counted(out, b"published", count)?;
    append_hex(out, b" records, root ", root)
}

fn append_zone(out: &mut Vec<u8>, numbers: &[u16]) -> Result<(), AllocError>
    ensures { Grown out.old (line_of_numbers ChartKind.Zone numbers.now) result out.new }
{
    append_text(out, b"zone")?;
    append_fields(out, numbers)
}

// Kind, numbers and counts stay apart: a writer's closure that captures a struct with a lifetime tells its caller nothing.
fn append_numbers(out: &mut Vec<u8>, kind: ChartKind, numbers: &[u16]) -> Result<(), AllocError>
    ensures { Grown out.old (line_of_numbers kind numbers.now) result out.new }
{
    match kind {
        ChartKind::Zone => append_zone(out, numbers),
        ChartKind::Site => append_sites(out, numbers),
    }
}

pub(crate) fn append_checked(
    out: &mut Vec<u8>,
    kind: ChartKind,
    numbers: &[u16],
    checked: Checked,
) -> Result<(), AllocError>
    ensures { Grown out.old (line_of_checked kind numbers.now checked) result out.new }
{
    append_numbers(out, kind, numbers)?;
    append_counted(out, b" by", checked.strings)?;
    append_counted(out, b" strings,", checked.bytes)?;
    append_text(out, b" bytes")
}

pub(crate) fn append_fault(out: &mut Vec<u8>, fault: Fault) -> Result<(), AllocError>
    ensures { Grown out.old (line_of_fault fault) result out.new }
{
    append_counted(out, b"refused", usize::from(fault.number()))?;
    append_pair(out, b" (", fault.layer().name().as_bytes())?;
    append_counted(out, b") at step", fault.step())?;
    append_counted(out, b", byte", fault.place())?;
    append_pair(out, b": ", fault.refusal().words().as_bytes())
}

fn append_at_record(
    out: &mut Vec<u8>,
    text: &[u8],
    place: usize,
    byte: usize,
) -> Result<(), AllocError>
    ensures { Grown out.old (at_record text.now place byte) result out.new }
{
    append_counted(out, text, place)?;
    append_counted(out, b", byte", byte)
}

pub(crate) fn append_comparison(out: &mut Vec<u8>, comparison: Comparison) -> Result<(), AllocError>
    ensures { Grown out.old (line_of_comparison comparison) result out.new }
{
    match comparison {
        Comparison::Same => append_text(out, b"same"),
        Comparison::Difference { place, byte } => {
            append_at_record(out, b"difference at record", place, byte)
        }
        Comparison::Clash { place, byte } => append_at_record(out, b"clash at record", place, byte),
    }
}

pub(crate) fn append_asked(
    out: &mut Vec<u8>,
    kind: ChartKind,
    numbers: &[u16],
    checked: Checked,
    comparison: Comparison,
) -> Result<(), AllocError>
    ensures { Grown out.old (line_of_asked kind numbers.now checked comparison) result out.new }
{
    append_checked(out, kind, numbers, checked)?;
    append_text(out, b": ")?;
    append_comparison(out, comparison)
}
