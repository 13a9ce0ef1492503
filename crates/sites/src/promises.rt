//! What is true of every list of sites that calls of a register can reach.
ghost use Rattle.sites.specs.Holdable.{HeldSitesAreOrderly, SameSitesSameList};

pub fn held_sites_are_orderly() -> u8
    ensures orderly { HeldSitesAreOrderly }
    ensures members { SameSitesSameList }
{
    0
}
