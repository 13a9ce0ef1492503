//! Reading the hex of a digest.
ghost use Rattle.std.specs.Prelude.{◌≡◌};
ghost use Rattle.hex_text.specs.Digest.{digest_of};

use crate::decode::decoded_length;
use crate::digits::pair_value;

/// The 32 bytes that a text says, if it is hex of as many.
pub fn decode_digest(text: &[u8]) -> Option<[u8; 32]>
    ensures { result ≡ digest_of text.now }
{
    let count = decoded_length(text)?;
    if count != 32 {
        return None;
    }
    let (pairs, _) = text.as_chunks::<2>();
    let mut bytes = [0; 32];
    for (i, [high, low]) in pairs.iter().enumerate() {
        match pair_value(*high, *low) {
            Some(byte) => bytes[i] = byte,
            None => unreachable(),
        }
    }
    Some(bytes)
}
