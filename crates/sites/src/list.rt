//! The numbers of sites, in a value of its own.
use slices::Run;

/// At most as many as a register holds, in rising order.
pub type SiteList = Run<u16, 128>;
