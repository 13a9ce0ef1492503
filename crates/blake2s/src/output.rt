// The bytes of a state.
ghost use Rattle.std.specs.Prelude.{◌≡◌};
ghost use Rattle.blake2s.specs.Standard.{joined};

pub(crate) fn bytes_of(h: [u32; 8]) -> [u8; 32]
    ensures { result ≡ joined h }
{
    let words = [
        h[0].to_le_bytes(),
        h[1].to_le_bytes(),
        h[2].to_le_bytes(),
        h[3].to_le_bytes(),
        h[4].to_le_bytes(),
        h[5].to_le_bytes(),
        h[6].to_le_bytes(),
        h[7].to_le_bytes(),
    ];
    let mut bytes = [0; 32];
    bytes.copy_from_slice(words.as_flattened());
    bytes
}
