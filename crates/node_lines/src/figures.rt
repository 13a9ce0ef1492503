//! The figure of the records that a chart holds.
ghost use Rattle.std.specs.Prelude.{◌≡◌, ◌++◌, length, OnOk};
ghost use Rattle.node_lines.specs.FigureLines.{printed_figure};

use crate::figure_lines::write_figure;
use script::reply::Reply;
use script::write::write_reply;
use search::chart::Chart;
use search::sheet::SheetRecord;
use std::alloc::{AllocError, Global};

/// Of a longer sheet no more records are usable.
const FULL_SHEET: usize = 8192;

/// Draws the figure of the held records into a sheet of its own, and puts its lines after what is written.
pub fn answer_figure<C: Chart>(
    heap: Global,
    register: &C,
    out: &mut Vec<u8>,
) -> Result<(), AllocError>
    ensures { OnOk result (out.new.items ≡ out.old.items ++ printed_figure (C.Chart.drawing.figure (C.Chart.held register.now))) }
{
    let mut sheet = vec![in heap; SheetRecord::ZERO; FULL_SHEET]?;
    write_drawn(register, &mut sheet, out)
}

/// The same with a sheet that is lent.
fn write_drawn<C: Chart>(
    register: &C,
    sheet: &mut [SheetRecord],
    out: &mut Vec<u8>,
) -> Result<(), AllocError>
    requires { length sheet.old ≡ 8192 }
    ensures { OnOk result (out.new.items ≡ out.old.items ++ printed_figure (C.Chart.drawing.figure (C.Chart.held register.now))) }
{
    match register.draw(sheet) {
        Ok(count) => write_figure(out, &sheet[..count]),
        Err(refusal) => write_reply(out, Reply::Refused(refusal)),
    }
}
