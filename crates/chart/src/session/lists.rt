//! The held records, a line each.
ghost use Rattle.std.specs.Prelude.{◌≡◌, ◌++◌, OnOk};
ghost use Rattle.std.specs.List.{flat_map};
ghost use Rattle.script.specs.Lines.{ended, line_of_edge, line_of_site};
ghost use Rattle.zones.specs.Register as zone_register;
ghost use Rattle.sites.specs.Register as site_register;

use script::reply::Reply;
use script::write::write_reply;
use sites::register::SiteRegister;
use std::alloc::AllocError;
use zones::register::ZoneRegister;

pub fn list_edges(register: &ZoneRegister, out: &mut Vec<u8>) -> Result<(), AllocError>
    ensures { OnOk result (out.new.items ≡ out.old.items ++ flat_map (λ e. ended (line_of_edge e)) (zone_register.held register.now)) }
{
    for edge in register.edges() {
        write_reply(out, Reply::Edge(edge.raw()))?;
    }
    Ok(())
}

// A loop each, with its own record and reply: a trait over both would be longer than the two loops.
pub fn list_sites(register: &SiteRegister, out: &mut Vec<u8>) -> Result<(), AllocError>
    ensures { OnOk result (out.new.items ≡ out.old.items ++ flat_map (λ s. ended (line_of_site s)) (site_register.held register.now)) }
{
    for site in register.sites() {
        write_reply(out, Reply::Place(site.raw()))?;
    }
    Ok(())
}
