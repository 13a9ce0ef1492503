//! The records of a site figure's nodes, without their digests.
ghost use Rattle.std.specs.Prelude.{◌≡◌, [], ◌∷◌};
ghost use Rattle.search.specs.Sheet.{record_of};
ghost use Rattle.sites.specs.Site.{raw_of};

use node::Kind;
use search::sheet::SheetRecord;
use sites::site::Site;

pub(crate) fn empty_node() -> SheetRecord
    ensures { result ≡ record_of (record { kind = 0; numbers = []; successors = [] }) }
{
    SheetRecord::of_node(u32::from(Kind::Empty), &[], &[])
}

pub(crate) fn site_node(site: &Site) -> SheetRecord
    ensures { result ≡ record_of (record { kind = 6; numbers = (raw_of site.now).number ∷ (raw_of site.now).x ∷ (raw_of site.now).y ∷ []; successors = [] }) }
{
    let number = i32::from(site.record_number());
    SheetRecord::of_node(u32::from(Kind::Site), &[number, site.x(), site.y()], &[])
}
