//! What a line asks for, done and answered.
ghost use Rattle.std.specs.Prelude.{◌≡◌, [], ◌++◌, OnOk};
ghost use Rattle.byte_commands.specs.Read.{read_byte_command};
ghost use Rattle.script.specs.declared.command.ChartKind.TheVariants.{Zone};
ghost use Rattle.script.specs.declared.command.Command.TheVariants.{Begin, AddEdge, AddSite, Remove, List as Records};
ghost use Rattle.chart.specs.Session.{left, left_by, printed, printed_for, printed_with_bytes, state_of};

use super::Session;
use super::answers::write_outcome;
use super::digests::answer_digest;
use super::lists::{list_edges, list_sites};
use byte_commands::command::ByteCommand;
use byte_commands::read::read_byte_command;
use records::raw::{EdgeRecord, SiteRecord};
use script::command::{ChartKind, Command, HashName};
use script::read::read_command;
use script::reply::Reply;
use script::write::{write_reply, write_unknown};
use sites::register::SiteRegister;
use std::alloc::{AllocError, Global};
use zones::register::ZoneRegister;

impl Session {
    /// As after `begin zone sha256`.
    pub fn new() -> Session
        ensures { state_of result ≡ record { kind = Zone; edges = []; sites = [] } }
    {
        Session {
            kind: ChartKind::Zone,
            edges: ZoneRegister::new(),
            sites: SiteRegister::new(),
        }
    }

    /// Does what a line asks for, and puts what is to be printed after what is written.
    pub fn answer_line(
        &mut self,
        heap: Global,
        line: &[u8],
        out: &mut Vec<u8>,
    ) -> Result<(), AllocError>
        ensures printed { OnOk result (out.new.items ≡ out.old.items ++ printed_for (state_of self.old) line.now) }
        ensures left { state_of self.new ≡ left_by (state_of self.old) line.now }
    {
        match read_command(self.kind, line) {
            None => answer_bytes(heap, line, out),
            Some(Command::Blank) => Ok(()),
            Some(Command::Begin { kind, hash }) => self.begin(kind, hash, out),
            Some(Command::AddEdge(edge)) => self.add_edge(edge, out),
            Some(Command::AddSite(site)) => self.add_site(site, out),
            Some(Command::Remove(number)) => self.remove(number, out),
            Some(Command::AnswerZone(point)) => self.answer_zone(&point, out),
            Some(Command::AnswerSites(rectangle)) => self.answer_sites(&rectangle, out),
            Some(Command::List) => self.list(out),
        }
    }

    fn begin(
        &mut self,
        kind: ChartKind,
        hash: HashName,
        out: &mut Vec<u8>,
    ) -> Result<(), AllocError>
        ensures printed { OnOk result (out.new.items ≡ out.old.items ++ printed (state_of self.old) (Begin kind hash)) }
        ensures left { state_of self.new ≡ left (state_of self.old) (Begin kind hash) }
    {
        self.kind = kind;
        self.edges = ZoneRegister::new();
        self.sites = SiteRegister::new();
        write_reply(out, Reply::Begun { kind, hash })
    }

    // The two adds differ in the register, the record and the command that their contracts name.

    fn add_edge(&mut self, edge: EdgeRecord, out: &mut Vec<u8>) -> Result<(), AllocError>
        ensures printed { OnOk result (out.new.items ≡ out.old.items ++ printed (state_of self.old) (AddEdge edge)) }
        ensures left { state_of self.new ≡ left (state_of self.old) (AddEdge edge) }
    {
        let outcome = self.edges.add(edge);
        write_outcome(out, outcome, Reply::Added(edge.number))
    }

    fn add_site(&mut self, site: SiteRecord, out: &mut Vec<u8>) -> Result<(), AllocError>
        ensures printed { OnOk result (out.new.items ≡ out.old.items ++ printed (state_of self.old) (AddSite site)) }
        ensures left { state_of self.new ≡ left (state_of self.old) (AddSite site) }
    {
        let outcome = self.sites.add(site);
        write_outcome(out, outcome, Reply::Added(site.number))
    }

    fn remove(&mut self, number: i64, out: &mut Vec<u8>) -> Result<(), AllocError>
        ensures printed { OnOk result (out.new.items ≡ out.old.items ++ printed (state_of self.old) (Remove number)) }
        ensures left { state_of self.new ≡ left (state_of self.old) (Remove number) }
    {
        let outcome = match self.kind {
            ChartKind::Zone => self.edges.remove(number),
            ChartKind::Site => self.sites.remove(number),
        };
        write_outcome(out, outcome, Reply::Removed(number))
    }

    fn list(&self, out: &mut Vec<u8>) -> Result<(), AllocError>
        ensures { OnOk result (out.new.items ≡ out.old.items ++ printed (state_of self.now) Records) }
    {
        match self.kind {
            ChartKind::Zone => list_edges(&self.edges, out),
            ChartKind::Site => list_sites(&self.sites, out),
        }
    }
}

/// The same of a line that is no command without bytes.
fn answer_bytes(heap: Global, line: &[u8], out: &mut Vec<u8>) -> Result<(), AllocError>
    ensures { OnOk result (out.new.items ≡ out.old.items ++ printed_with_bytes line.now (read_byte_command line.now)) }
{
    match read_byte_command(line) {
        None => write_unknown(out, line),
        Some(ByteCommand::Digest { hash, message }) => answer_digest(heap, hash, message, out),
    }
}
