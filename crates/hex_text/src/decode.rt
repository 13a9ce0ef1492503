//! Reading hex.
ghost use Rattle.std.specs.Prelude.{◌≡◌, ◌+◌, ◌≤◌, true, ◌++◌, length, is_some, is_ok, IfOk, if◌then◌else◌, vec_len, vec_capacity};
ghost use Rattle.std.specs.Option.{option_map};
ghost use Rattle.hex_text.specs.Hex.{bytes_in, bytes_of};

use crate::append::append_byte;
use crate::digits::pair_value;
use std::alloc::AllocError;

/// How many bytes a text says, if it is hex.
pub fn decoded_length(text: &[u8]) -> Option<usize>
    ensures { result ≡ option_map length (bytes_of text.now) }
{
    if text == b"-".as_slice() {
        return Some(0);
    }
    let (pairs, rest) = text.as_chunks::<2>();
    if pairs.is_empty() || !rest.is_empty() {
        return None;
    }
    for [high, low] in pairs {
        pair_value(*high, *low)?;
    }
    Some(pairs.len())
}

/// Whether a text is hex. Its bytes are then put after what is written; where memory fails,
/// nothing is, and it fails only where there is not room for them all.
// The answer is no error: whoever knows that the text is hex may pass over it.
pub fn decode(text: &[u8], out: &mut Vec<u8>) -> Result<bool, AllocError>
    ensures answer { IfOk result (λ hex. hex ≡ is_some (bytes_of text.now)) }
    ensures items { out.new.items ≡ (if is_ok result then out.old.items ++ bytes_in text.now else out.old.items) }
    ensures succeeds { vec_len out.old + length (bytes_in text.now) ≤ vec_capacity out.old → is_ok result ≡ true }
    ensures room { vec_capacity out.old ≤ vec_capacity out.new }
{
    let Some(count) = decoded_length(text) else {
        return Ok(false);
    };
    out.reserve(count)?;
    let (pairs, _) = text.as_chunks::<2>();
    for [high, low] in pairs {
        match pair_value(*high, *low) {
            Some(byte) => append_byte(out, byte),
            None => unreachable(),
        }
    }
    Ok(true)
}
