// Four words of the working vector.
ghost use Rattle.std.specs.Prelude.{◌≡◌, ◌<◌};

// Their places.
#[derive(Clone, Copy)]
pub(crate) struct Places {
    pub(crate) a: usize,
    pub(crate) b: usize,
    pub(crate) c: usize,
    pub(crate) d: usize,
    ghost within: { (a < 16) × ((b < 16) × ((c < 16) × (d < 16))) },
}

impl Places {
    pub(crate) fn new(a: usize, b: usize, c: usize, d: usize) -> Places
        requires { (a < 16) × ((b < 16) × ((c < 16) × (d < 16))) }
        ensures { (result.a ≡ a) × ((result.b ≡ b) × ((result.c ≡ c) × (result.d ≡ d))) }
    {
        Places { a, b, c, d }
    }
}
