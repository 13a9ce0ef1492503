// The hash computation of one block (FIPS 180-4, section 6.2.2).
ghost use Rattle.std.specs.Prelude.{◌≡◌, ℕ, ◌+◌, ◌<◌, ◌≤◌, List};
ghost use Rattle.sha256.specs.Compression.{rounds, added, compress};
ghost use Rattle.sha256.specs.Windows.{window, half_window};
ghost use Rattle.sha256.specs.declared.words.Words.{Words};

use crate::constants::ROUND_CONSTANTS;
use crate::round::round;
use crate::schedule::{first_sixteen, next_sixteen};
use crate::words::Words;

// The rounds t to t + 7, with the schedule's words from t on. They are written out: a loop is slower.
#[inline(always)]
fn eight_rounds(v: Words, w: [u32; 8], t: usize) -> Words
    requires { t ≤ 56 }
    ensures { (h : Words) (ws : List ℕ) → v ≡ rounds h ws t → w ≡ half_window ws t → result ≡ rounds h ws (t + 8) }
{
    let v1 = round(v, ROUND_CONSTANTS[t], w[0]);
    let v2 = round(v1, ROUND_CONSTANTS[t + 1], w[1]);
    let v3 = round(v2, ROUND_CONSTANTS[t + 2], w[2]);
    let v4 = round(v3, ROUND_CONSTANTS[t + 3], w[3]);
    let v5 = round(v4, ROUND_CONSTANTS[t + 4], w[4]);
    let v6 = round(v5, ROUND_CONSTANTS[t + 5], w[5]);
    let v7 = round(v6, ROUND_CONSTANTS[t + 6], w[6]);
    round(v7, ROUND_CONSTANTS[t + 7], w[7])
}

// The rounds t to t + 15.
fn sixteen_rounds(v: Words, w: [u32; 16], t: usize) -> Words
    requires { t ≤ 48 }
    ensures { (h : Words) (ws : List ℕ) → v ≡ rounds h ws t → w ≡ window ws t → result ≡ rounds h ws (t + 16) }
{
    let [
        w0,
        w1,
        w2,
        w3,
        w4,
        w5,
        w6,
        w7,
        w8,
        w9,
        w10,
        w11,
        w12,
        w13,
        w14,
        w15,
    ] = w;
    let half = eight_rounds(v, [w0, w1, w2, w3, w4, w5, w6, w7], t);
    eight_rounds(half, [w8, w9, w10, w11, w12, w13, w14, w15], t + 8)
}

// The sum of two hash values, word by word.
fn sum(x: Words, y: Words) -> Words
    ensures { result ≡ added x y }
{
    Words {
        a: x.a.wrapping_add(y.a),
        b: x.b.wrapping_add(y.b),
        c: x.c.wrapping_add(y.c),
        d: x.d.wrapping_add(y.d),
        e: x.e.wrapping_add(y.e),
        f: x.f.wrapping_add(y.f),
        g: x.g.wrapping_add(y.g),
        h: x.h.wrapping_add(y.h),
    }
}

// Takes a block into the hash value.
pub(crate) fn absorb(h: &mut Words, block: &[u8; 64])
    ensures { h.new ≡ compress h.old block.now }
{
    let before = *h;
    let mut w = first_sixteen(block);
    let mut v = before;
    // One body for all quarters: with one of them written apart it is slower.
    for quarter in 0..4 {
        if quarter > 0 {
            next_sixteen(&mut w);
        }
        v = sixteen_rounds(v, w, 16 * quarter);
    }
    *h = sum(before, v);
}
