//! Known kinds and fit numbers have 32 bits in both chart kinds, as crate calls asks where strings are read back.
ghost use Rattle.calls.specs.Meaning.{HasSmallNodes};
ghost use Rattle.site_figure.specs.Judge.{site_judging};
ghost use Rattle.zone_figure.specs.Judge.{zone_judging};

pub fn nodes_of_zones_are_small() -> u8
    ensures { HasSmallNodes zone_judging }
{
    0
}

pub fn nodes_of_sites_are_small() -> u8
    ensures { HasSmallNodes site_judging }
{
    0
}
