//! What holds of every line.
ghost use Rattle.byte_commands.specs.Apart.{NoLineIsBoth};

pub fn no_line_is_both() -> u8
    ensures { NoLineIsBoth }
{
    0
}
