//! A publish into a fresh sheet, of which the counted records are kept.
ghost use Rattle.std.specs.Prelude.{◌≡◌, [], ◌∷◌, ◌++◌, map, take, IfOk, vec_items, OnOk};
ghost use Rattle.std.specs.Option.{unwrap_or};
ghost use Rattle.script.specs.Lines.{ended};
ghost use Rattle.calls.specs.Publishing.{root_in};
ghost use Rattle.call_commands.specs.Lines.{line_of_published};
ghost use Rattle.call_answers.specs.Printed.{fresh_sheet, publish_keeps, publish_prints};

use call_commands::write::write_published;
use calls::drawn::DrawnChart;
use digest::Hash;
use office::publishing::{publish, root_of};
use script::reply::Reply;
use script::write::write_reply;
use search::sheet::SheetRecord;
use std::alloc::{AllocError, Global};

/// Publishes what is held into a sheet of so many records, keeps what is accepted, and prints its count and root.
pub fn answer_publish<H: Hash, C: DrawnChart>(
    heap: Global,
    register: &C,
    room: usize,
    kept: &mut Vec<Vec<SheetRecord>>,
    out: &mut Vec<u8>,
) -> Result<(), AllocError>
    ensures printed { OnOk result (out.new.items ≡ out.old.items ++ ended (publish_prints H.Hash.digest (C.Chart.drawing.figure (C.Chart.held register.now)) room)) }
    ensures kept { OnOk result (map vec_items kept.new.items ≡ publish_keeps H.Hash.digest (C.Chart.drawing.figure (C.Chart.held register.now)) room (map vec_items kept.old.items)) }
{
    let mut sheet = fresh_sheet(heap, room)?;
    match publish::<H, C>(register, &mut sheet) {
        Ok(count) => keep_published(sheet, count, kept, out),
        Err(refusal) => write_reply(out, Reply::Refused(refusal)),
    }
}

/// A sheet of zero records.
fn fresh_sheet(heap: Global, room: usize) -> Result<Vec<SheetRecord>, AllocError>
    ensures { IfOk result (λ sheet. sheet.items ≡ fresh_sheet room) }
{
    vec![in heap; SheetRecord::ZERO; room]
}

/// Of a published sheet the counted records are kept.
fn keep_published(
    mut sheet: Vec<SheetRecord>,
    count: usize,
    kept: &mut Vec<Vec<SheetRecord>>,
    out: &mut Vec<u8>,
) -> Result<(), AllocError>
    ensures printed { OnOk result (out.new.items ≡ out.old.items ++ ended (line_of_published count (unwrap_or (root_in (take count sheet.items) count) []))) }
    ensures kept { OnOk result (map vec_items kept.new.items ≡ map vec_items kept.old.items ++ take count sheet.items ∷ []) }
{
    sheet.truncate(count);
    let root = root_of(&sheet, count);
    write_published(
        out,
        count,
        root.as_ref().map_or(&[], |root| root.as_slice()),
    )?;
    kept.push(sheet)?;
    Ok(())
}
