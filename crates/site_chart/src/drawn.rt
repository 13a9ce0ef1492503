//! The figure of whatever a site chart holds has sound nodes, with the root last.
ghost use Rattle.std.specs.Prelude.{◌≡◌, true, map};
ghost use Rattle.std.specs.List.{AllByRecursion};
ghost use Rattle.sites.specs.Site.{is_site, raw_of};

use crate::chart::SiteChart;
use calls::drawn::DrawnChart;
use sites::site::Site;

impl DrawnChart for SiteChart {
    fn show_drawn(&self) {
        read_numbers(self.register.sites())
    }
}

/// Reads every number, by which it is known to be in range.
fn read_numbers(sites: &[Site])
    ensures { AllByRecursion (λ r. is_site r ≡ true) (map raw_of sites.now) }
{
    for site in sites {
        let _number = site.record_number();
    }
}
