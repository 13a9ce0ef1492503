//! The reader of a proof.

ghost use Rattle.std.specs.Prelude.{◌≡◌, drop};
ghost use Rattle.reader.specs.Reading.{bytes_left, finished, map_ok, opened, place_after, position_of, read_kind, read_string};
ghost use Rattle.reader.specs.Views.{seen_in};

use crate::fault::ReaderFault;
use crate::view::NodeView;
use node::Shape;

/// The bytes of a proof, and the place where the next string begins.
#[derive(Drop)]
pub struct Reader<'a> {
    bytes: &'a [u8],
    at: usize,
}

impl<'a> Reader<'a> {
    pub const LONGEST: usize = 65_535;

    /// A reader at the first byte; a proof that is too long is refused.
    pub fn new(bytes: &'a [u8]) -> Result<Reader<'a>, ReaderFault>
        ensures { map_ok position_of result ≡ opened bytes.now }
    {
        if bytes.len() > Self::LONGEST {
            return Err(ReaderFault::ProofTooLong);
        }
        Ok(Reader { bytes, at: 0 })
    }

    /// The place where the next string begins.
    pub fn place(&self) -> usize
        ensures { result ≡ (position_of self.now).at }
    {
        self.at
    }

    /// The kind of the next string. Whoever knows the kinds then says its shape.
    pub fn read_kind(&self) -> Result<u32, ReaderFault>
        ensures { result ≡ read_kind (position_of self.now) }
    {
        let Some(word) = self.rest().first_chunk() else {
            return Err(ReaderFault::KindCutShort(self.at));
        };
        Ok(u32::from_be_bytes(*word))
    }

    /// The next string, whose shape is known by its kind. A refusal leaves the place as it was.
    pub fn read_rest(&mut self, shape: Shape) -> Result<NodeView<'a>, ReaderFault>
        ensures answer { map_ok seen_in result ≡ read_string (position_of self.old) shape }
        ensures place { self.new.at ≡ place_after (position_of self.old) (read_string (position_of self.old) shape) }
        ensures proof { self.new.bytes ≡ self.old.bytes }
    {
        let kind = self.read_kind()?;
        let length = shape.string_length();
        if self.left() < length {
            return Err(ReaderFault::RestCutShort(self.at));
        }
        let (string, _) = self.rest().split_at(length);
        let (_, parts) = string.split_at(4);
        let (numbers, successors) = parts.split_at(4 * usize::from(shape.numbers));
        let begins = self.at;
        self.at += length;
        Ok(NodeView {
            kind,
            string,
            numbers,
            successors,
            begins,
            ends: self.at,
        })
    }

    /// Nothing more is to be read: bytes left over are refused.
    pub fn finish(&self) -> Result<(), ReaderFault>
        ensures { result ≡ finished (position_of self.now) }
    {
        if self.left() > 0 {
            return Err(ReaderFault::BytesLeftOver(self.at));
        }
        Ok(())
    }

    fn left(&self) -> usize
        ensures { result ≡ bytes_left (position_of self.now) }
    {
        self.rest().len()
    }

    /// The bytes from the place on.
    fn rest(&self) -> &'a [u8]
        ensures { result.now ≡ drop self.now.at self.now.bytes.now }
    {
        self.bytes.get(self.at..).unwrap_or(&[])
    }
}
