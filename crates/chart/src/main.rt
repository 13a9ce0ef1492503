//! Reads commands from standard input, one to a line, and prints what each does.
#![tactic(auto)]

mod session;

use session::Session;
use std::io;
use std::io::{BufRead, BufReader, Write};

fn main(rt: HostRuntime) -> io::Result<()> {
    let heap = rt.alloc();
    let mut input = BufReader::new(heap, rt.stdin())?;
    let mut output = rt.stdout();
    let mut session = Session::new();
    let mut line = Vec::new(heap);
    let mut replies = Vec::new(heap);
    // Every loop has to end, and no input has so many lines.
    for _ in 0..u64::MAX {
        line.clear();
        if input.read_until(b'\n', &mut line)? == 0 {
            break;
        }
        session.answer_line(heap, without_newline(&line), &mut replies)?;
        output.write_all(&replies)?;
        replies.clear();
    }
    Ok(())
}

/// The last line of an input may lack its newline.
fn without_newline(line: &[u8]) -> &[u8] {
    match line {
        [front @ .., b'\n'] => front,
        _ => line,
    }
}
