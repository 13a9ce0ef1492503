//! Where a list is halved.
ghost use Rattle.std.specs.Prelude.{◌≡◌, ◌<◌};
ghost use Rattle.zone_figure.specs.Halving.{half as Half};
ghost use Rattle.zone_figure.specs.Slab.{edges_before};
ghost use Rattle.zone_figure.specs.Figure.{bounds_before};

/// Half of m, rounded up.
fn half(m: usize) -> usize
    ensures { result ≡ Half m }
{
    m.div_ceil(2)
}

/// Of m edges, how many stand before edge ⌈m/2⌉, counted from 1.
pub(crate) fn edges_before(m: usize) -> usize
    requires { 0 < m }
    ensures place { result ≡ edges_before m }
    ensures inside { result < m }
{
    half(m) - 1
}

/// Of m bounds between m + 1 slabs, how many are inside the first ⌈(m + 1)/2⌉ of them.
pub(crate) fn bounds_before(m: usize) -> usize
    requires { 0 < m }
    ensures place { result ≡ bounds_before m }
    ensures inside { result < m }
{
    m - half(m)
}
