// The rounds of the compression function (RFC 7693, section 3.2).
ghost use Rattle.std.specs.Prelude.{◌≡◌, ℕ, ◌+◌, ◌<◌, List};
ghost use Rattle.blake2s.specs.Mixing.{word_of, chosen, G, columns, diagonals, rounds};

use crate::constants::SIGMA;
use crate::mixing::mix;
use crate::places::Places;

// The word `i` of a block, least significant byte first.
fn word(block: &[u8; 64], i: usize) -> u32
    requires { i < 16 }
    ensures { result ≡ word_of block.now i }
{
    let (words, _) = block.as_chunks::<4>();
    u32::from_le_bytes(words[i])
}

// Which round it is stands in the function's type, and a number there has no type that keeps it below 10: so each says it.

// The word of the block that the round `ROUND` takes at the place `j`.
fn scheduled<const ROUND: usize>(block: &[u8; 64], j: usize) -> u32
    requires { (ROUND < 10) × (j < 16) }
    ensures { result ≡ chosen block.now ROUND j }
{
    word(block, usize::from(SIGMA[ROUND][j]))
}

// Mixes the words of the block that the round takes at the places `j` and `j + 1`.
fn mix_words<const ROUND: usize>(v: &mut [u32; 16], block: &[u8; 64], at: Places, j: usize)
    requires { (ROUND < 10) × (j + 1 < 16) }
    ensures { v.new ≡ G v.old at.a at.b at.c at.d (chosen block.now ROUND j) (chosen block.now ROUND (j + 1)) }
{
    mix(
        v,
        at,
        scheduled::<ROUND>(block, j),
        scheduled::<ROUND>(block, j + 1),
    );
}

// The first four of the eight mixings of a round, as the standard lists them.
fn mix_columns<const ROUND: usize>(v: &mut [u32; 16], block: &[u8; 64])
    requires { ROUND < 10 }
    ensures { v.new ≡ columns block.now ROUND v.old }
{
    mix_words::<ROUND>(v, block, Places::new(0, 4, 8, 12), 0);
    mix_words::<ROUND>(v, block, Places::new(1, 5, 9, 13), 2);
    mix_words::<ROUND>(v, block, Places::new(2, 6, 10, 14), 4);
    mix_words::<ROUND>(v, block, Places::new(3, 7, 11, 15), 6);
}

// The last four.
fn mix_diagonals<const ROUND: usize>(v: &mut [u32; 16], block: &[u8; 64])
    requires { ROUND < 10 }
    ensures { v.new ≡ diagonals block.now ROUND v.old }
{
    mix_words::<ROUND>(v, block, Places::new(0, 5, 10, 15), 8);
    mix_words::<ROUND>(v, block, Places::new(1, 6, 11, 12), 10);
    mix_words::<ROUND>(v, block, Places::new(2, 7, 8, 13), 12);
    mix_words::<ROUND>(v, block, Places::new(3, 4, 9, 14), 14);
}

fn round<const ROUND: usize>(v: &mut [u32; 16], block: &[u8; 64])
    requires { ROUND < 10 }
    ensures { (first : List ℕ) → v.old ≡ rounds block.now first ROUND → v.new ≡ rounds block.now first (ROUND + 1) }
{
    mix_columns::<ROUND>(v, block);
    mix_diagonals::<ROUND>(v, block);
}

// All of the rounds. Each is a function of its own, so that the places of its words are known where it is built.
pub(crate) fn ten_rounds(v: &mut [u32; 16], block: &[u8; 64])
    ensures { v.new ≡ rounds block.now v.old 10 }
{
    round::<0>(v, block);
    round::<1>(v, block);
    round::<2>(v, block);
    round::<3>(v, block);
    round::<4>(v, block);
    round::<5>(v, block);
    round::<6>(v, block);
    round::<7>(v, block);
    round::<8>(v, block);
    round::<9>(v, block);
}
