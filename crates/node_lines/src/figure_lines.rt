//! The lines of a figure.
ghost use Rattle.std.specs.Prelude.{◌≡◌, ◌++◌, OnOk};
ghost use Rattle.script.specs.Growth.{Appended, Grown};
ghost use Rattle.script.specs.Lines.{ended};
ghost use Rattle.node_lines.specs.FigureLines.{line_of_count, line_of_record, name_of, parts_shown, record_lines, record_shown, sheet_lines};

use crate::append::{append_after, append_numbered};
use node::Kind;
use script::append::{append_digits, append_fields, append_text};
use script::write::write_line;
use search::sheet::SheetRecord;
use std::alloc::AllocError;

// A line takes the bytes of a name, so it is a text and no Display.
fn kind_name(kind: Kind) -> &'static str
    ensures { result.now ≡ name_of kind }
{
    match kind {
        Kind::Empty => "empty",
        Kind::Split => "split",
        Kind::Edge => "edge",
        Kind::Zone => "zone",
        Kind::XSpan => "x span",
        Kind::YSpan => "y span",
        Kind::Site => "site",
    }
}

fn append_known(out: &mut Vec<u8>, kind: Kind, node: &SheetRecord) -> Result<(), AllocError>
    ensures { Grown out.old (parts_shown kind node.now) result out.new }
{
    let shape = kind.shape();
    append_text(out, kind_name(kind).as_bytes())?;
    append_fields(out, &node.numbers[..usize::from(shape.numbers)])?;
    append_after(out, b";", &node.successors[..usize::from(shape.successors)])
}

fn append_shown(out: &mut Vec<u8>, node: &SheetRecord) -> Result<(), AllocError>
    ensures { Grown out.old (record_shown node.now) result out.new }
{
    match Kind::try_from(node.kind) {
        Ok(kind) => append_known(out, kind, node),
        Err(_) => append_text(out, b"kind not known"),
    }
}

fn append_record(out: &mut Vec<u8>, place: usize, node: &SheetRecord) -> Result<(), AllocError>
    ensures { Grown out.old (line_of_record place node.now) result out.new }
{
    append_digits(out, place)?;
    append_text(out, b": ")?;
    append_shown(out, node)
}

fn append_count(out: &mut Vec<u8>, count: usize) -> Result<(), AllocError>
    ensures { Grown out.old (line_of_count count) result out.new }
{
    append_numbered(out, b"figure of ", count)?;
    append_text(out, b" nodes")
}

fn write_record(out: &mut Vec<u8>, place: usize, node: &SheetRecord) -> Result<(), AllocError>
    ensures { Appended out.old (ended (line_of_record place node.now)) result out.new }
{
    write_line(out, |out| append_record(out, place, node))
}

/// Puts the lines of the records of a figure after what is written.
#[tactic(auto, using(crate::proofs::Nodes::record_step))]
fn write_records(out: &mut Vec<u8>, nodes: &[SheetRecord]) -> Result<(), AllocError>
    ensures { OnOk result (out.new.items ≡ out.old.items ++ record_lines 0 nodes.now) }
{
    for (place, node) in nodes.iter().enumerate() {
        write_record(out, place, node)?;
    }
    Ok(())
}

/// Puts the lines of a figure that is drawn in records after what is written.
pub(crate) fn write_figure(out: &mut Vec<u8>, nodes: &[SheetRecord]) -> Result<(), AllocError>
    ensures { OnOk result (out.new.items ≡ out.old.items ++ sheet_lines nodes.now) }
{
    write_line(out, |out| append_count(out, nodes.len()))?;
    write_records(out, nodes)
}
