//! Writing the lines that answer them.
ghost use Rattle.script.specs.Growth.{Appended, Grown};
ghost use Rattle.script.specs.Lines.{ended};
ghost use Rattle.byte_commands.specs.Lines.{line_of_digest};

use hex_text::encode::encode;
use script::append::append_text;
use script::write::write_line;
use std::alloc::AllocError;

fn append_digest(out: &mut Vec<u8>, digest: &[u8; 32]) -> Result<(), AllocError>
    ensures { Grown out.old (line_of_digest digest.now) result out.new }
{
    append_text(out, b"digest ")?;
    encode(digest, out)
}

/// Puts the line of a digest after what is written.
pub fn write_digest(out: &mut Vec<u8>, digest: &[u8; 32]) -> Result<(), AllocError>
    ensures { Appended out.old (ended (line_of_digest digest.now)) result out.new }
{
    write_line(out, |out| append_digest(out, digest))
}
