// The last block of a message.
ghost use Rattle.std.specs.Prelude.{◌≡◌, ◌≤◌, true, length};
ghost use Rattle.blake2s.specs.Mixing.{F};
ghost use Rattle.blake2s.specs.Standard.{filled};

use crate::compression::absorb;

// A block with the last bytes of a message in front, then zeros.
fn block_of(rest: &[u8]) -> [u8; 64]
    requires { length rest.now ≤ 64 }
    ensures { result ≡ filled rest.now }
{
    let mut block = [0; 64];
    block[0..rest.len()].copy_from_slice(rest);
    block
}

// Takes the last bytes of a message of `size` bytes into the state. A whole block is read where it lies.
pub(crate) fn absorb_last(h: &mut [u32; 8], rest: &[u8], size: usize)
    requires { length rest.now ≤ 64 }
    ensures { h.new ≡ F h.old (filled rest.now) size true }
{
    match rest.first_chunk::<64>() {
        Some(block) => absorb(h, block, size, true),
        None => {
            let block = block_of(rest);
            absorb(h, &block, size, true);
        }
    }
}
