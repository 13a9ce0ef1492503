//! The next of the strings that stand in bytes, of whichever kind.
ghost use Rattle.std.specs.Prelude.{◌≡◌};
ghost use Rattle.reader.specs.Reading.{map_ok, position_of};
ghost use Rattle.reader.specs.Views.{seen_in};
ghost use Rattle.node_lines.specs.NextString.{next_string, place_after};
ghost use Rattle.node_lines.specs.declared.next_string.StringFault.TheVariants as string_fault;

use node::{Kind, KindNotKnown};
use reader::{NodeView, Reader, ReaderFault};

/// Why no string can be read.
#[derive(Clone, Copy)]
pub enum StringFault {
    CutShort,
    KindNotKnown(u32),
}

/// Whatever the reader lacks, the bytes end inside the string.
impl From<ReaderFault> for StringFault {
    ghost from_gives = { λ e fault. fault ≡ string_fault.CutShort };

    fn from(_: ReaderFault) -> StringFault {
        StringFault::CutShort
    }
}

/// A number that stands for no kind is kept.
impl From<KindNotKnown> for StringFault {
    ghost from_gives = { λ e fault. fault ≡ string_fault.KindNotKnown e.0 };

    fn from(e: KindNotKnown) -> StringFault {
        StringFault::KindNotKnown(e.0)
    }
}

/// The next string. Where there is none, the place stays.
pub(crate) fn next_string<'a>(reader: &mut Reader<'a>) -> Result<NodeView<'a>, StringFault>
    ensures answer { map_ok seen_in result ≡ next_string (position_of reader.old) }
    ensures place { reader.new.at ≡ place_after (position_of reader.old) (next_string (position_of reader.old)) }
    ensures bytes { reader.new.bytes ≡ reader.old.bytes }
{
    let number = reader.read_kind()?;
    let kind = Kind::try_from(number)?;
    Ok(reader.read_rest(kind.shape())?)
}
