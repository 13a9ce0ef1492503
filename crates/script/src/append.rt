//! Parts of a line, put at the end of what is written.
ghost use Rattle.std.specs.Prelude.{◌++◌};
ghost use Rattle.std.specs.List.{flat_map};
ghost use Rattle.script.specs.Growth.{Grown};
ghost use Rattle.script.specs.Lines.{after_space, line_of_sites};

use itoa::{Buffer, Integer};
use std::alloc::AllocError;

pub fn append_text(out: &mut Vec<u8>, text: &[u8]) -> Result<(), AllocError>
    ensures { Grown out.old text.now result out.new }
{
    out.extend_from_slice(text)
}

pub fn append_pair(out: &mut Vec<u8>, first: &[u8], second: &[u8]) -> Result<(), AllocError>
    ensures { Grown out.old (first.now ++ second.now) result out.new }
{
    append_text(out, first)?;
    append_text(out, second)
}

/// A number in plain decimal.
pub fn append_digits<I: Integer>(out: &mut Vec<u8>, number: I) -> Result<(), AllocError>
    ensures { Grown out.old (I.text number) result out.new }
{
    let mut buffer = Buffer::new();
    let digits = buffer.format(number).as_bytes();
    append_text(out, digits)
}

/// A number after a space.
pub fn append_field<I: Integer>(out: &mut Vec<u8>, number: I) -> Result<(), AllocError>
    ensures { Grown out.old (after_space (I.text number)) result out.new }
{
    append_text(out, b" ")?;
    append_digits(out, number)
}

/// Numbers, each after a space.
pub fn append_fields<I: Integer>(out: &mut Vec<u8>, numbers: &[I]) -> Result<(), AllocError>
    ensures { Grown out.old (flat_map (λ n. after_space (I.text n)) numbers.now) result out.new }
{
    for number in numbers {
        append_field(out, *number)?;
    }
    Ok(())
}

/// A word with numbers after it.
pub fn append_words<I: Integer>(
    out: &mut Vec<u8>,
    verb: &[u8],
    numbers: &[I],
) -> Result<(), AllocError>
    ensures { Grown out.old (verb.now ++ flat_map (λ n. after_space (I.text n)) numbers.now) result out.new }
{
    append_text(out, verb)?;
    append_fields(out, numbers)
}

pub fn append_sites(out: &mut Vec<u8>, numbers: &[u16]) -> Result<(), AllocError>
    ensures { Grown out.old (line_of_sites numbers.now) result out.new }
{
    if numbers.is_empty() {
        return append_text(out, b"sites none");
    }
    append_words(out, b"sites", numbers)
}
