//! Strings written into a lent buffer.
//!
//! The parts can be written one by one, so that a caller whose digests stand in several places
//! copies each of them once.

ghost use Rattle.std.specs.Prelude.{◌≡◌, ◌+◌, ◌<◌, ◌≤◌, length, MatchResult};
ghost use Rattle.std.specs.List.{flat_map};
ghost use Rattle.node.specs.Writing.{put_at, written, written_end, written_string, written_string_end};
ghost use Rattle.node.specs.Xdr.{xdr_uint, xdr_int, xdr_opaque};
ghost use Rattle.node.specs.declared.writing.NotWritten.TheVariants as NotWritten;

use crate::encoded::Encoded;

/// The bytes do not fit between the place and the end of the buffer.
#[derive(Clone, Copy, Debug, PartialEq, Eq)]
pub struct NoRoom;

/// Why a whole string was not written.
#[derive(Clone, Copy, Debug, PartialEq, Eq)]
pub enum NotWritten {
    /// More than four numbers, or more than three digests.
    TooManyParts,
    NoRoom,
}

impl From<NoRoom> for NotWritten {
    ghost from_gives = { λ _ why. why ≡ NotWritten.NoRoom };

    fn from(_: NoRoom) -> NotWritten {
        NotWritten::NoRoom
    }
}

/// Writes the string of a node and gives the place after it. Refused, the buffer is as it was. A chart may have kinds of its own,
/// so a kind is any number.
pub fn write_string(
    out: &mut [u8],
    at: usize,
    kind: u32,
    numbers: &[i32],
    digests: &[[u8; 32]],
) -> Result<usize, NotWritten>
    ensures answer { result ≡ written_string_end out.old at kind numbers.now digests.now }
    ensures after { out.new ≡ written_string out.old at kind numbers.now digests.now }
{
    if numbers.len() > 4 || digests.len() > 3 {
        return Err(NotWritten::TooManyParts);
    }
    let length = 4 + 4 * numbers.len() + 32 * digests.len();
    let end = end_in(out, at, length)?;
    let after_kind = put(out, at, &kind.to_be_bytes());
    let after_numbers = put_each(out, after_kind, numbers);
    put_each(out, after_numbers, digests);
    Ok(end)
}

/// Writes items one after another and gives the place after the last.
fn put_each<T: Encoded<N>, const N: usize>(out: &mut [u8], at: usize, items: &[T]) -> usize
    requires room { at + length (flat_map T.encoding items.now) ≤ length out.old }
    requires small { N ≤ 32 }
    ensures answer { result ≡ at + length (flat_map T.encoding items.now) }
    ensures after { out.new ≡ put_at out.old at (flat_map T.encoding items.now) }
{
    let mut end = at;
    for item in items {
        end = put(out, end, &item.encoded());
    }
    end
}

// One function for each type of the standard, all three a line over `put_bytes`.

/// Writes an unsigned integer and gives the place after it.
pub fn put_uint(out: &mut [u8], at: usize, value: u32) -> Result<usize, NoRoom>
    ensures answer { result ≡ written_end out.old at (xdr_uint value) }
    ensures after { out.new ≡ written out.old at (xdr_uint value) }
{
    put_bytes(out, at, &value.to_be_bytes())
}

/// Writes an integer and gives the place after it.
pub fn put_int(out: &mut [u8], at: usize, number: i32) -> Result<usize, NoRoom>
    ensures answer { result ≡ written_end out.old at (xdr_int number) }
    ensures after { out.new ≡ written out.old at (xdr_int number) }
{
    put_bytes(out, at, &number.to_be_bytes())
}

/// Writes a digest and gives the place after it.
pub fn put_digest(out: &mut [u8], at: usize, digest: &[u8; 32]) -> Result<usize, NoRoom>
    ensures answer { result ≡ written_end out.old at (xdr_opaque digest.now) }
    ensures after { out.new ≡ written out.old at (xdr_opaque digest.now) }
{
    put_bytes(out, at, digest)
}

/// The place after so many bytes from a place on, if they fit.
fn end_in(out: &[u8], at: usize, count: usize) -> Result<usize, NoRoom>
    ensures { MatchResult result (λ end. (end ≡ at + count) × (end ≤ length out.now)) (λ _. length out.now < at + count) }
{
    if at > out.len() || out.len() - at < count {
        return Err(NoRoom);
    }
    Ok(at + count)
}

fn put_bytes(out: &mut [u8], at: usize, bytes: &[u8]) -> Result<usize, NoRoom>
    ensures answer { result ≡ written_end out.old at bytes.now }
    ensures after { out.new ≡ written out.old at bytes.now }
{
    let end = end_in(out, at, bytes.len())?;
    put(out, at, bytes);
    Ok(end)
}

fn put(out: &mut [u8], at: usize, bytes: &[u8]) -> usize
    requires { at + length bytes.now ≤ length out.old }
    ensures answer { result ≡ at + length bytes.now }
    ensures after { out.new ≡ put_at out.old at bytes.now }
{
    let end = at + bytes.len();
    out[at..end].copy_from_slice(bytes);
    end
}
