//! Bytes put where there is room for them.
ghost use Rattle.std.specs.Prelude.{◌≡◌, ◌+◌, ◌<◌, ◌≤◌, [], ◌∷◌, ◌++◌, vec_len, vec_capacity};
ghost use Rattle.hex_text.specs.Hex.{digits_of};

use crate::digits::hex_digit;

pub(crate) fn append_byte(out: &mut Vec<u8>, byte: u8)
    requires { vec_len out.old < vec_capacity out.old }
    ensures items { out.new.items ≡ out.old.items ++ byte ∷ [] }
    ensures len { vec_len out.new ≡ vec_len out.old + 1 }
    ensures room { vec_capacity out.old ≤ vec_capacity out.new }
{
    match out.push(byte) {
        Ok(()) => {}
        Err(_) => unreachable(),
    }
}

/// The two digits of a byte.
pub(crate) fn append_digits(out: &mut Vec<u8>, byte: u8)
    requires { vec_len out.old + 2 ≤ vec_capacity out.old }
    ensures items { out.new.items ≡ out.old.items ++ digits_of byte }
    ensures len { vec_len out.new ≡ vec_len out.old + 2 }
    ensures room { vec_capacity out.old ≤ vec_capacity out.new }
{
    append_byte(out, hex_digit(byte / 16));
    append_byte(out, hex_digit(byte % 16));
}
