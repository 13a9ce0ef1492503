//! A fresh register, and what a register holds.
ghost use Rattle.std.specs.Prelude.{◌≡◌, ◌≤◌, [], map, length};
ghost use Rattle.std.specs.List.{slice_get};
ghost use Rattle.sites.specs.Register.{held};
ghost use Rattle.sites.specs.Site.{raw_of};

use super::SiteRegister;
use crate::site::Site;
use records::raw::SiteRecord;
use slices::Run;

impl SiteRegister {
    /// A fresh register holds nothing.
    pub fn new() -> SiteRegister
        ensures { held result ≡ [] }
    {
        SiteRegister {
            sites: Run::new(Site::filler()),
        }
    }

    pub fn len(&self) -> usize
        ensures { result ≡ length (held self.now) }
    {
        self.sites.len()
    }

    /// The sites held, in rising number.
    pub fn sites(&self) -> &[Site]
        ensures held { map raw_of result.now ≡ held self.now }
        ensures few { length result.now ≤ 128 }
    {
        self.sites.as_slice()
    }

    /// The record at a place, counted from 0 in rising number.
    pub fn record(&self, place: usize) -> Option<SiteRecord>
        ensures { result ≡ slice_get (held self.now) place }
    {
        self.sites().get(place).map(|site| site.raw())
    }
}
