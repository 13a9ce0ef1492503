//! Writing bytes as hex.
ghost use Rattle.std.specs.Prelude.{◌≡◌, ◌+◌, ◌≤◌, true, ◌++◌, length, is_ok, if◌then◌else◌, vec_len, vec_capacity};
ghost use Rattle.hex_text.specs.Hex.{hex_of};

use crate::append::append_digits;
use std::alloc::AllocError;

/// Puts the hex of the bytes after what is written. Where memory fails, nothing is written;
/// it fails only where there is not room for it all.
pub fn encode(bytes: &[u8], out: &mut Vec<u8>) -> Result<(), AllocError>
    ensures items { out.new.items ≡ (if is_ok result then out.old.items ++ hex_of bytes.now else out.old.items) }
    ensures succeeds { vec_len out.old + length (hex_of bytes.now) ≤ vec_capacity out.old → is_ok result ≡ true }
    ensures room { vec_capacity out.old ≤ vec_capacity out.new }
{
    if bytes.is_empty() {
        return out.extend_from_slice(b"-");
    }
    out.reserve(2 * bytes.len())?;
    for byte in bytes {
        append_digits(out, *byte);
    }
    Ok(())
}
