//! Reading a command line that carries bytes.
ghost use Rattle.std.specs.Prelude.{◌≡◌, ◌∷◌, drop};
ghost use Rattle.std.specs.Option.{option_map};
ghost use Rattle.script.specs.Words.{words_of};
ghost use Rattle.byte_commands.specs.Asked.{asked};
ghost use Rattle.byte_commands.specs.Read.{first_hex, read_byte_command, read_digest};

use crate::command::ByteCommand;
use hex_text::decode::decoded_length;
use script::hash_named;
use script::read::LONGEST_LINE;
use script::words::Words;

/// The next word, if it is hex.
pub fn hex_word<'a>(words: &mut Words<'a>) -> Option<&'a [u8]>
    ensures word { option_map (λ w. (w.now, words_of words.new.rest.now)) result ≡ first_hex (words_of words.old.rest.now) }
    ensures rest { words_of words.new.rest.now ≡ drop 1 (words_of words.old.rest.now) }
{
    let word = words.next()?;
    decoded_length(word)?;
    Some(word)
}

fn read_digest<'a>(words: &mut Words<'a>) -> Option<ByteCommand<'a>>
    ensures { option_map asked result ≡ read_digest (words_of words.old.rest.now) }
{
    let hash = hash_named(words.next()?)?;
    let message = hex_word(words)?;
    words.end()?;
    Some(ByteCommand::Digest { hash, message })
}

/// The command with bytes that a line gives.
pub fn read_byte_command(line: &[u8]) -> Option<ByteCommand<'_>>
    ensures { option_map asked result ≡ read_byte_command line.now }
{
    if line.len() > LONGEST_LINE {
        return None;
    }
    let mut words = Words::new(line);
    let verb = words.next()?;
    match verb {
        b"digest" => read_digest(&mut words),
        _ => None,
    }
}
