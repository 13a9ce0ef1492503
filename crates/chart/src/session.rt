//! What the commands of one run have made so far: the chart kind at hand and its registers.
use script::command::ChartKind;
use sites::register::SiteRegister;
use zones::register::ZoneRegister;

pub mod answers;
pub mod commands;
pub mod digests;
pub mod lists;

#[derive(Drop)]
pub struct Session {
    kind: ChartKind,
    edges: ZoneRegister,
    sites: SiteRegister,
}
