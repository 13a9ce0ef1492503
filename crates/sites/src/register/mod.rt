//! The register of sites, at most 128, in rising number. Only its own calls make or change one.
use crate::site::Site;
use slices::Run;

pub mod answers;
pub mod changes;
pub mod contents;

// The register of edges is like it, and tests for conflicts besides: each call of both is a line or two over a run, and its
// contract speaks of its own records, so one type for both would be no plainer.
#[derive(Clone, Copy)]
pub struct SiteRegister {
    sites: Run<Site, 128>,
}
