// The mixing function G (RFC 7693, section 3.1).
ghost use Rattle.std.specs.Prelude.{◌≡◌};
ghost use Rattle.blake2s.specs.Mixing.{half, G};

use crate::places::Places;

// Half of it: mixes one word of the message in, and rotates by `R1` and `R2` bits.
fn half<const R1: u32, const R2: u32>(v: &mut [u32; 16], at: Places, x: u32)
    ensures { v.new ≡ half R1 R2 v.old at.a at.b at.c at.d x }
{
    v[at.a] = v[at.a].wrapping_add(v[at.b]).wrapping_add(x);
    v[at.d] = (v[at.d] ^ v[at.a]).rotate_right(R1);
    v[at.c] = v[at.c].wrapping_add(v[at.d]);
    v[at.b] = (v[at.b] ^ v[at.c]).rotate_right(R2);
}

// Mixes two words of the message into four of the working vector.
pub(crate) fn mix(v: &mut [u32; 16], at: Places, x: u32, y: u32)
    ensures { v.new ≡ G v.old at.a at.b at.c at.d x y }
{
    half::<16, 12>(v, at, x);
    half::<8, 7>(v, at, y);
}
