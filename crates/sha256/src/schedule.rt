// The message schedule, sixteen words at a time (FIPS 180-4, section 6.2.2, step 1).
ghost use Rattle.std.specs.Prelude.{◌≡◌, ℕ, ◌+◌, ◌<◌, ◌≤◌, List};
ghost use Rattle.sha256.specs.Compression.{word_of, expand, schedule};
ghost use Rattle.sha256.specs.Windows.{window};

use crate::functions::{small_sigma_0, small_sigma_1};

// The word `t` of a block.
fn word(block: &[u8; 64], t: usize) -> u32
    requires { t < 16 }
    ensures { result ≡ word_of block.now t }
{
    let (words, _) = block.as_chunks::<4>();
    u32::from_be_bytes(words[t])
}

// The words of the block itself.
pub(crate) fn first_sixteen(block: &[u8; 64]) -> [u32; 16]
    ensures { result ≡ window (schedule block.now 64) 0 }
{
    [
        word(block, 0),
        word(block, 1),
        word(block, 2),
        word(block, 3),
        word(block, 4),
        word(block, 5),
        word(block, 6),
        word(block, 7),
        word(block, 8),
        word(block, 9),
        word(block, 10),
        word(block, 11),
        word(block, 12),
        word(block, 13),
        word(block, 14),
        word(block, 15),
    ]
}

// A later word, from those that stand 2, 7, 15 and 16 places before it.
fn expanded(back_2: u32, back_7: u32, back_15: u32, back_16: u32) -> u32
    ensures { result ≡ expand back_2 back_7 back_15 back_16 }
{
    small_sigma_1(back_2)
        .wrapping_add(back_7)
        .wrapping_add(small_sigma_0(back_15))
        .wrapping_add(back_16)
}

// Goes on to the sixteen words that follow. They are written out: a loop over the places is slower.
pub(crate) fn next_sixteen(w: &mut [u32; 16])
    ensures { (block : List ℕ) (t : ℕ) → t + 32 ≤ 64 → w.old ≡ window (schedule block 64) t → w.new ≡ window (schedule block 64) (t + 16) }
{
    let [
        w0,
        w1,
        w2,
        w3,
        w4,
        w5,
        w6,
        w7,
        w8,
        w9,
        w10,
        w11,
        w12,
        w13,
        w14,
        w15,
    ] = *w;
    let x0 = expanded(w14, w9, w1, w0);
    let x1 = expanded(w15, w10, w2, w1);
    let x2 = expanded(x0, w11, w3, w2);
    let x3 = expanded(x1, w12, w4, w3);
    let x4 = expanded(x2, w13, w5, w4);
    let x5 = expanded(x3, w14, w6, w5);
    let x6 = expanded(x4, w15, w7, w6);
    let x7 = expanded(x5, x0, w8, w7);
    let x8 = expanded(x6, x1, w9, w8);
    let x9 = expanded(x7, x2, w10, w9);
    let x10 = expanded(x8, x3, w11, w10);
    let x11 = expanded(x9, x4, w12, w11);
    let x12 = expanded(x10, x5, w13, w12);
    let x13 = expanded(x11, x6, w14, w13);
    let x14 = expanded(x12, x7, w15, w14);
    let x15 = expanded(x13, x8, x0, w15);
    *w = [
        x0, x1, x2, x3, x4, x5, x6, x7, x8, x9, x10, x11, x12, x13, x14, x15,
    ];
}
