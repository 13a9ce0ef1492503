//! The items of a string, each with the bytes that XDR gives it.

ghost use Rattle.std.specs.Prelude.{◌≡◌, ℕ, List};
ghost use Rattle.node.specs.Xdr.{xdr_int, xdr_opaque};

/// An item that takes N bytes.
pub(crate) trait Encoded<const N: usize> {
    ghost encoding: { Self → List ℕ };

    fn encoded(&self) -> [u8; N]
        ensures { result ≡ encoding self.now };
}

impl Encoded<4> for i32 {
    ghost encoding = { xdr_int };

    fn encoded(&self) -> [u8; 4] {
        self.to_be_bytes()
    }
}

impl Encoded<32> for [u8; 32] {
    ghost encoding = { xdr_opaque };

    fn encoded(&self) -> [u8; 32] {
        *self
    }
}
