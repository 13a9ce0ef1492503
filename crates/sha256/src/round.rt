// One round (FIPS 180-4, section 6.2.2, step 3).
ghost use Rattle.std.specs.Prelude.{◌≡◌};
ghost use Rattle.sha256.specs.Compression.{step};

use crate::functions::{choose, large_sigma_0, large_sigma_1, majority};
use crate::words::Words;

// The working variables after a round with the constant `k` and the schedule's word `w`.
pub(crate) fn round(v: Words, k: u32, w: u32) -> Words
    ensures { result ≡ step v k w }
{
    let t1 = v
        .h
        .wrapping_add(large_sigma_1(v.e))
        .wrapping_add(choose(v.e, v.f, v.g))
        .wrapping_add(k)
        .wrapping_add(w);
    let t2 = large_sigma_0(v.a).wrapping_add(majority(v.a, v.b, v.c));
    Words {
        a: t1.wrapping_add(t2),
        b: v.a,
        c: v.b,
        d: v.c,
        e: v.d.wrapping_add(t1),
        f: v.e,
        g: v.f,
        h: v.g,
    }
}
