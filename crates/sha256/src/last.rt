// The padded end of a message (FIPS 180-4, section 5.1.1).
ghost use Rattle.std.specs.Prelude.{◌≡◌, ◌+◌, ◌-◌, ◌*◌, ◌/◌, ◌%◌, ◌<◌, ◌≤◌, ◌∷◌, ◌++◌, length, take, replicate};
ghost use Rattle.digest.specs.Hashing.{longest};
ghost use Rattle.sha256.specs.Standard.{after, padding, eight_bytes};

use crate::compression::absorb;
use crate::words::Words;

// A block with the last bytes of a message in front, then the bit that ends it.
fn ended(rest: &[u8]) -> [u8; 64]
    requires { length rest.now < 64 }
    ensures { result ≡ rest.now ++ (128 ∷ replicate (63 - length rest.now) 0) }
{
    let mut block = [0; 64];
    block[0..rest.len()].copy_from_slice(rest);
    block[rest.len()] = 128;
    block
}

// Writes the message's length, in bits, into the last eight bytes.
fn put_length(block: &mut [u8; 64], bits: usize)
    ensures { block.new ≡ take 56 block.old ++ eight_bytes bits }
{
    block[56..64].copy_from_slice(&bits.to_be_bytes());
}

// Takes the rest of a message of `size` bytes, and its padding, into the hash value.
pub(crate) fn absorb_last(h: &mut Words, rest: &[u8], size: usize)
    requires { (length rest.now ≡ size % 64) × (size ≤ longest) }
    ensures { h.new ≡ after h.old (rest.now ++ padding size) ((length rest.now + 72) / 64) }
{
    let mut block = ended(rest);
    if rest.len() >= 56 {
        absorb(h, &block);
        block = [0; 64];
    }
    put_length(&mut block, 8 * size);
    absorb(h, &block);
}
