//! Parts of a line that shows a node.
ghost use Rattle.std.specs.Prelude.{ℕ, List, ◌++◌, pos};
ghost use Rattle.std.specs.List.{flat_map};
ghost use Rattle.node.specs.Xdr.{int_of};
ghost use Rattle.script.specs.Growth.{Grown};
ghost use Rattle.script.specs.Lines.{field};
ghost use Rattle.node_lines.specs.Shown.{after_text};
ghost use Rattle.node_lines.specs.StringLines.{hex_field};

use hex_text::encode::encode;
use itoa::Integer;
use script::append::{append_digits, append_field, append_text};
use std::alloc::AllocError;

/// What stands in a line after a space.
pub(crate) trait Field {
    /// Its bytes, with the space.
    ghost shown: { Self → List ℕ };

    fn append(&self, out: &mut Vec<u8>) -> Result<(), AllocError>
        ensures { Grown out.old (shown self.now) result out.new };
}

/// The place of a node in a figure.
impl Field for u32 {
    ghost shown = { λ place. field (pos place) };

    fn append(&self, out: &mut Vec<u8>) -> Result<(), AllocError> {
        append_field(out, *self)
    }
}

/// A number in a string.
impl Field for [u8; 4] {
    ghost shown = { λ word. field (int_of word) };

    fn append(&self, out: &mut Vec<u8>) -> Result<(), AllocError> {
        append_field(out, i32::from_be_bytes(*self))
    }
}

/// A digest in a string.
impl Field for [u8; 32] {
    ghost shown = { hex_field };

    fn append(&self, out: &mut Vec<u8>) -> Result<(), AllocError> {
        append_text(out, b" ")?;
        encode(self, out)
    }
}

fn append_each<T: Field>(out: &mut Vec<u8>, items: &[T]) -> Result<(), AllocError>
    ensures { Grown out.old (flat_map T.shown items.now) result out.new }
{
    for item in items {
        item.append(out)?;
    }
    Ok(())
}

/// A text with the items right after it, or nothing where there are none.
pub(crate) fn append_after<T: Field>(
    out: &mut Vec<u8>,
    text: &[u8],
    items: &[T],
) -> Result<(), AllocError>
    ensures { Grown out.old (after_text text.now T.shown items.now) result out.new }
{
    if items.is_empty() {
        return Ok(());
    }
    append_text(out, text)?;
    append_each(out, items)
}

/// A text with a number right after it.
pub(crate) fn append_numbered<I: Integer>(
    out: &mut Vec<u8>,
    text: &[u8],
    number: I,
) -> Result<(), AllocError>
    ensures { Grown out.old (text.now ++ I.text number) result out.new }
{
    append_text(out, text)?;
    append_digits(out, number)
}
