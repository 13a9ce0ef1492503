//! What the calls of a command print.
ghost use Rattle.std.specs.Prelude.{◌≡◌, ◌++◌, Some, None, OnOk};
ghost use Rattle.script.specs.Lines.{ended, line_of};
ghost use Rattle.chart.specs.Session.{reply_of, sites_line, state_of, zone_reply};
ghost use Rattle.sites.specs.Question.{question_refusal, sites_in};

use super::Session;
use records::raw::{Point, Rectangle};
use refusal::Refusal;
use script::reply::Reply;
use script::write::{write_reply, write_sites};
use std::alloc::AllocError;

/// The reply of a call that was done, or its refusal.
// A match here and below: both arms write to `out`, which the two closures of `map_or_else` cannot both hold.
pub fn write_outcome(
    out: &mut Vec<u8>,
    outcome: Result<(), Refusal>,
    done: Reply,
) -> Result<(), AllocError>
    ensures { OnOk result (out.new.items ≡ out.old.items ++ ended (line_of (reply_of outcome done))) }
{
    match outcome {
        Ok(()) => write_reply(out, done),
        Err(refusal) => write_reply(out, Reply::Refused(refusal)),
    }
}

impl Session {
    pub fn answer_zone(&self, point: &Point, out: &mut Vec<u8>) -> Result<(), AllocError>
        ensures { OnOk result (out.new.items ≡ out.old.items ++ ended (line_of (zone_reply (state_of self.now) point.now))) }
    {
        match self.edges.zone_of(point) {
            Ok(zone) => write_reply(out, Reply::InZone(zone)),
            Err(refusal) => write_reply(out, Reply::Refused(refusal)),
        }
    }

    pub fn answer_sites(&self, rectangle: &Rectangle, out: &mut Vec<u8>) -> Result<(), AllocError>
        ensures { OnOk result (out.new.items ≡ out.old.items ++ ended (sites_line (question_refusal rectangle.now) (sites_in (state_of self.now).sites rectangle.now))) }
    {
        match self.sites.sites_in(rectangle) {
            Ok(inside) => write_sites(out, inside.as_slice()),
            Err(refusal) => write_reply(out, Reply::Refused(refusal)),
        }
    }
}
