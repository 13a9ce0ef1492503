// The compression function F (RFC 7693, section 3.2).
ghost use Rattle.std.specs.Prelude.{◌≡◌};
ghost use Rattle.blake2s.specs.Mixing.{started, folded, F};

use crate::constants::IV;
use crate::rounds::ten_rounds;

// The working vector before the first round.
fn first_vector(h: [u32; 8], count: usize, last: bool) -> [u32; 16]
    ensures { result ≡ started h count last }
{
    let [h0, h1, h2, h3, h4, h5, h6, h7] = h;
    let low = (count % 0x1_0000_0000) as u32;
    let high = (count / 0x1_0000_0000) as u32;
    let flagged = if last { IV[6] ^ 0xffff_ffff } else { IV[6] };
    [
        h0,
        h1,
        h2,
        h3,
        h4,
        h5,
        h6,
        h7,
        IV[0],
        IV[1],
        IV[2],
        IV[3],
        IV[4] ^ low,
        IV[5] ^ high,
        flagged,
        IV[7],
    ]
}

// The state with both halves of the working vector xored into it.
fn xored(h: [u32; 8], v: [u32; 16]) -> [u32; 8]
    ensures { result ≡ folded h v }
{
    [
        h[0] ^ v[0] ^ v[8],
        h[1] ^ v[1] ^ v[9],
        h[2] ^ v[2] ^ v[10],
        h[3] ^ v[3] ^ v[11],
        h[4] ^ v[4] ^ v[12],
        h[5] ^ v[5] ^ v[13],
        h[6] ^ v[6] ^ v[14],
        h[7] ^ v[7] ^ v[15],
    ]
}

// Takes a block into the state; `count` bytes of the message are taken with it.
pub(crate) fn absorb(h: &mut [u32; 8], block: &[u8; 64], count: usize, last: bool)
    ensures { h.new ≡ F h.old block.now count last }
{
    let before = *h;
    let mut v = first_vector(before, count, last);
    ten_rounds(&mut v, block);
    *h = xored(before, v);
}
