// The bytes of a hash value.
ghost use Rattle.std.specs.Prelude.{◌≡◌};
ghost use Rattle.sha256.specs.Standard.{joined};

use crate::words::Words;

pub(crate) fn bytes_of(h: Words) -> [u8; 32]
    ensures { result ≡ joined h }
{
    let words = [
        h.a.to_be_bytes(),
        h.b.to_be_bytes(),
        h.c.to_be_bytes(),
        h.d.to_be_bytes(),
        h.e.to_be_bytes(),
        h.f.to_be_bytes(),
        h.g.to_be_bytes(),
        h.h.to_be_bytes(),
    ];
    let mut bytes = [0; 32];
    bytes.copy_from_slice(words.as_flattened());
    bytes
}
