//! Writing the line of a reply.
ghost use Rattle.std.specs.Fn.{FnOnceReturnsAtMut};
ghost use Rattle.script.specs.Growth.{Appended, Closed, Finished, Grown, Puts};
ghost use Rattle.script.specs.Lines.{ended, line_of, line_of_begun, line_of_edge, line_of_refusal, line_of_site, line_of_sites, line_of_unknown};

use crate::append::{append_pair, append_sites, append_words};
use crate::command::{ChartKind, HashName};
use crate::names::{hash_name, kind_name};
use crate::reply::Reply;
use records::raw::{EdgeRecord, SiteRecord};
use refusal::Refusal;
use std::alloc::AllocError;

fn append_begun(out: &mut Vec<u8>, kind: ChartKind, hash: HashName) -> Result<(), AllocError>
    ensures { Grown out.old (line_of_begun kind hash) result out.new }
{
    append_pair(out, b"begun ", kind_name(kind).as_bytes())?;
    append_pair(out, b" ", hash_name(hash).as_bytes())
}

fn append_refused(out: &mut Vec<u8>, refusal: Refusal) -> Result<(), AllocError>
    ensures { Grown out.old (line_of_refusal refusal) result out.new }
{
    append_words(out, b"refused", &[u8::from(refusal)])?;
    append_pair(out, b": ", refusal.words().as_bytes())
}

fn append_edge(out: &mut Vec<u8>, edge: EdgeRecord) -> Result<(), AllocError>
    ensures { Grown out.old (line_of_edge edge) result out.new }
{
    let numbers = [edge.number, edge.x1, edge.y1, edge.x2, edge.y2, edge.zone];
    append_words(out, b"add", &numbers)
}

fn append_site(out: &mut Vec<u8>, site: SiteRecord) -> Result<(), AllocError>
    ensures { Grown out.old (line_of_site site) result out.new }
{
    append_words(out, b"add", &[site.number, site.x, site.y])
}

fn append_reply(out: &mut Vec<u8>, reply: Reply) -> Result<(), AllocError>
    ensures { Grown out.old (line_of reply) result out.new }
{
    match reply {
        Reply::Begun { kind, hash } => append_begun(out, kind, hash),
        Reply::Added(number) => append_words(out, b"added", &[number]),
        Reply::Removed(number) => append_words(out, b"removed", &[number]),
        Reply::InZone(zone) => append_words(out, b"zone", &[zone]),
        Reply::Edge(edge) => append_edge(out, edge),
        Reply::Place(site) => append_site(out, site),
        Reply::Refused(refusal) => append_refused(out, refusal),
    }
}

/// Ends a line that began at `start`, or takes it back where memory failed.
pub fn finish_line(
    out: &mut Vec<u8>,
    start: usize,
    written: Result<(), AllocError>,
) -> Result<(), AllocError>
    ensures { Finished out.old start written result out.new }
{
    if written.is_ok() && out.extend_from_slice(b"\n").is_ok() {
        return Ok(());
    }
    out.truncate(start);
    Err(AllocError)
}

/// Puts the line whose text a call appends after what is written. Where memory fails, all of the
/// line is taken back.
pub fn write_line<F: FnOnce(&mut Vec<u8>) -> Result<(), AllocError>>(
    out: &mut Vec<u8>,
    append: F,
) -> Result<(), AllocError>
    requires { F.IsAlwaysCallable append }
    ensures line { (text : _) → Puts (FnOnceReturnsAtMut F.FnOnce append out.old) out.old text → Appended out.old (ended text) result out.new }
    ensures whole { Closed (FnOnceReturnsAtMut F.FnOnce append out.old) out.old result out.new }
{
    let start = out.len();
    let written = append(out);
    finish_line(out, start, written)
}

/// Puts the line of a reply after what is written.
pub fn write_reply(out: &mut Vec<u8>, reply: Reply) -> Result<(), AllocError>
    ensures { Appended out.old (ended (line_of reply)) result out.new }
{
    write_line(out, |out| append_reply(out, reply))
}

/// Puts the numbers of the sites in a rectangle after what is written.
pub fn write_sites(out: &mut Vec<u8>, numbers: &[u16]) -> Result<(), AllocError>
    ensures { Appended out.old (ended (line_of_sites numbers.now)) result out.new }
{
    write_line(out, |out| append_sites(out, numbers))
}

/// Puts a line that is no command after what is written.
pub fn write_unknown(out: &mut Vec<u8>, line: &[u8]) -> Result<(), AllocError>
    ensures { Appended out.old (ended (line_of_unknown line.now)) result out.new }
{
    write_line(out, |out| append_pair(out, b"unknown: ", line))
}
