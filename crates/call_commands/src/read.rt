//! Reading a command line that makes a call.
ghost use Rattle.std.specs.Prelude.{◌≡◌, ◌∷◌};
ghost use Rattle.std.specs.Option.{option_map};
ghost use Rattle.script.specs.Words.{words_of};
ghost use Rattle.call_commands.specs.Asked.{asked};
ghost use Rattle.call_commands.specs.Read.{count_in, first_question, last_count, read_adopt, read_ask, read_call_command, read_call_words, read_check, read_cross_check, read_nth, read_prove, read_publish, read_root, room_of};

use crate::command::{CallCommand, Question};
use byte_commands::read::hex_word;
use script::command::ChartKind;
use script::read::LONGEST_LINE;
use script::words::Words;
use script::{read_number, same};

fn read_question(kind: ChartKind, words: &mut Words) -> Option<Question>
    ensures { option_map (λ q. (q, words_of words.new.rest.now)) result ≡ first_question kind (words_of words.old.rest.now) }
{
    match kind {
        ChartKind::Zone => Some(Question::At(words.point()?)),
        ChartKind::Site => Some(Question::Within(words.rectangle()?)),
    }
}

/// A number from 0 to `most`.
fn count_in(word: &[u8], most: usize) -> Option<usize>
    ensures { result ≡ count_in most word.now }
{
    let count = usize::try_from(read_number(word)?).ok()?;
    (count <= most).then_some(count)
}

/// The last word as such a number.
fn read_count(words: &mut Words, most: usize) -> Option<usize>
    ensures { result ≡ last_count most (words_of words.old.rest.now) }
{
    let count = count_in(words.next()?, most)?;
    words.end()?;
    Some(count)
}

/// The room that is asked for, or the usual one.
fn read_room(words: &mut Words, usual: usize, most: usize) -> Option<usize>
    ensures { result ≡ room_of usual most (words_of words.old.rest.now) }
{
    match words.next() {
        None => Some(usual),
        Some(b"room") => read_count(words, most),
        Some(_) => None,
    }
}

fn read_publish<'a>(words: &mut Words<'a>) -> Option<CallCommand<'a>>
    ensures { option_map asked result ≡ read_publish (words_of words.old.rest.now) }
{
    let Some(word) = words.next() else {
        return Some(CallCommand::Publish { room: 8192 });
    };
    let room = count_in(word, 65_536)?;
    words.end()?;
    Some(CallCommand::Publish { room })
}

fn read_adopt<'a>(words: &mut Words<'a>) -> Option<CallCommand<'a>>
    ensures { option_map asked result ≡ read_adopt (words_of words.old.rest.now) }
{
    match words.next() {
        None => Some(CallCommand::AdoptLatest),
        Some(b"root") => read_root(words),
        Some(word) => read_nth(word, words),
    }
}

fn read_root<'a>(words: &mut Words<'a>) -> Option<CallCommand<'a>>
    ensures { option_map asked result ≡ read_root (words_of words.old.rest.now) }
{
    let root = hex_word(words)?;
    words.end()?;
    Some(CallCommand::AdoptRoot { root })
}

fn read_nth<'a>(word: &[u8], words: &mut Words<'a>) -> Option<CallCommand<'a>>
    ensures { option_map asked result ≡ read_nth word.now (words_of words.old.rest.now) }
{
    let number = read_number(word)?;
    words.end()?;
    Some(CallCommand::AdoptNth(number))
}

// Kind and words stay two: publish and adopt read words of either kind alike.
fn read_prove<'a>(kind: ChartKind, words: &mut Words<'a>) -> Option<CallCommand<'a>>
    ensures { option_map asked result ≡ read_prove kind (words_of words.old.rest.now) }
{
    let question = read_question(kind, words)?;
    let room = read_room(words, 65_535, 100_000)?;
    Some(CallCommand::Prove { question, room })
}

fn read_check<'a>(kind: ChartKind, words: &mut Words<'a>) -> Option<CallCommand<'a>>
    ensures { option_map asked result ≡ read_check kind (words_of words.old.rest.now) }
{
    let question = read_question(kind, words)?;
    let proof = hex_word(words)?;
    let room = read_room(words, 128, 1000)?;
    Some(CallCommand::Check {
        question,
        proof,
        room,
    })
}

fn read_cross_check<'a>(kind: ChartKind, words: &mut Words<'a>) -> Option<CallCommand<'a>>
    ensures { option_map asked result ≡ read_cross_check kind (words_of words.old.rest.now) }
{
    let question = read_question(kind, words)?;
    let proof = hex_word(words)?;
    words.end()?;
    Some(CallCommand::CrossCheck { question, proof })
}

fn read_ask<'a>(kind: ChartKind, words: &mut Words<'a>) -> Option<CallCommand<'a>>
    ensures { option_map asked result ≡ read_ask kind (words_of words.old.rest.now) }
{
    let question = read_question(kind, words)?;
    words.end()?;
    Some(CallCommand::Ask(question))
}

fn read_after<'a>(verb: &[u8], kind: ChartKind, words: &mut Words<'a>) -> Option<CallCommand<'a>>
    ensures { option_map asked result ≡ read_call_words kind (verb.now ∷ words_of words.old.rest.now) }
{
    // With patterns the last arm has some forty ways to miss them, b"cross-check" being long, and its proof stays open.
    if same(verb, b"publish") {
        read_publish(words)
    } else if same(verb, b"adopt") {
        read_adopt(words)
    } else if same(verb, b"prove") {
        read_prove(kind, words)
    } else if same(verb, b"check") {
        read_check(kind, words)
    } else if same(verb, b"cross-check") {
        read_cross_check(kind, words)
    } else if same(verb, b"ask") {
        read_ask(kind, words)
    } else {
        None
    }
}

/// The call that a line asks of a chart of this kind.
pub fn read_call_command(kind: ChartKind, line: &[u8]) -> Option<CallCommand<'_>>
    ensures { option_map asked result ≡ read_call_command kind line.now }
{
    if line.len() > LONGEST_LINE {
        return None;
    }
    let mut words = Words::new(line);
    let verb = words.next()?;
    read_after(verb, kind, &mut words)
}
