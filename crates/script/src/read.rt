//! Reading a command line.
ghost use Rattle.std.specs.Prelude.{◌≡◌, ◌<◌, ◌≤◌, ◌∷◌};
ghost use Rattle.std.specs.Option.{option_map};
ghost use Rattle.script.specs.Command.{hash_of, read_add, read_answer, read_begin, read_command, read_edge, read_point, read_rectangle, read_remove, read_site, read_words};
ghost use Rattle.script.specs.Fields.{at_end};
ghost use Rattle.script.specs.Words.{words_of};

use crate::command::{ChartKind, Command, HashName};
use crate::names::{hash_named, kind_named};
use crate::words::Words;
use records::raw::{EdgeRecord, Point, Rectangle, SiteRecord};

/// Lines with more bytes are not read.
pub const LONGEST_LINE: usize = 200_000;

fn read_edge(words: &mut Words) -> Option<EdgeRecord>
    ensures { result ≡ read_edge (words_of words.old.rest.now) }
{
    let number = words.number()?;
    let x1 = words.number()?;
    let y1 = words.number()?;
    let x2 = words.number()?;
    let y2 = words.number()?;
    let zone = words.number()?;
    words.end()?;
    Some(EdgeRecord {
        number,
        x1,
        y1,
        x2,
        y2,
        zone,
    })
}

fn read_site(words: &mut Words) -> Option<SiteRecord>
    ensures { result ≡ read_site (words_of words.old.rest.now) }
{
    let number = words.number()?;
    let x = words.number()?;
    let y = words.number()?;
    words.end()?;
    Some(SiteRecord { number, x, y })
}

// Records and questions have each their own words, and then the line ends.

fn read_point(words: &mut Words) -> Option<Point>
    ensures { result ≡ read_point (words_of words.old.rest.now) }
{
    let point = words.point()?;
    words.end()?;
    Some(point)
}

fn read_rectangle(words: &mut Words) -> Option<Rectangle>
    ensures { result ≡ read_rectangle (words_of words.old.rest.now) }
{
    let rectangle = words.rectangle()?;
    words.end()?;
    Some(rectangle)
}

fn read_begin(words: &mut Words) -> Option<Command>
    ensures { result ≡ read_begin (words_of words.old.rest.now) }
{
    let kind = kind_named(words.next()?)?;
    let hash = read_hash(words)?;
    Some(Command::Begin { kind, hash })
}

fn read_hash(words: &mut Words) -> Option<HashName>
    ensures { result ≡ hash_of (words_of words.old.rest.now) }
{
    let Some(word) = words.next() else {
        return Some(HashName::Sha256);
    };
    let hash = hash_named(word)?;
    words.end()?;
    Some(hash)
}

// The words after a verb are read by the chart at hand, which the words do not tell: one line for each kind of chart.

fn read_add(kind: ChartKind, words: &mut Words) -> Option<Command>
    ensures { result ≡ read_add kind (words_of words.old.rest.now) }
{
    match kind {
        ChartKind::Zone => Some(Command::AddEdge(read_edge(words)?)),
        ChartKind::Site => Some(Command::AddSite(read_site(words)?)),
    }
}

fn read_answer(kind: ChartKind, words: &mut Words) -> Option<Command>
    ensures { result ≡ read_answer kind (words_of words.old.rest.now) }
{
    match kind {
        ChartKind::Zone => Some(Command::AnswerZone(read_point(words)?)),
        ChartKind::Site => Some(Command::AnswerSites(read_rectangle(words)?)),
    }
}

fn read_remove(words: &mut Words) -> Option<Command>
    ensures { result ≡ read_remove (words_of words.old.rest.now) }
{
    let number = words.number()?;
    words.end()?;
    Some(Command::Remove(number))
}

fn read_list(words: &mut Words) -> Option<Command>
    ensures { result ≡ at_end (words_of words.old.rest.now) Command.List }
{
    words.end()?;
    Some(Command::List)
}

fn read_after(verb: &[u8], kind: ChartKind, words: &mut Words) -> Option<Command>
    ensures { result ≡ read_words kind (verb.now ∷ words_of words.old.rest.now) }
{
    match verb {
        b"begin" => read_begin(words),
        b"add" => read_add(kind, words),
        b"remove" => read_remove(words),
        b"answer" => read_answer(kind, words),
        b"list" => read_list(words),
        _ => None,
    }
}

/// The command that a line gives to a chart of this kind. A line without one is unknown.
pub fn read_command(kind: ChartKind, line: &[u8]) -> Option<Command>
    ensures { result ≡ read_command kind line.now }
{
    if line.len() > LONGEST_LINE {
        return None;
    }
    let mut words = Words::new(line);
    let Some(verb) = words.next() else {
        return Some(Command::Blank);
    };
    read_after(verb, kind, &mut words)
}
