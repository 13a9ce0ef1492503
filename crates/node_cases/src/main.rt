//! Strings of every kind, written, read back, cut at every byte and damaged; what it prints is
//! compared with what another program works out.
#![tactic(auto)]

mod reading;
mod samples;

use fault::Fault;
use node::{Kind, write_string};
use reader::NodeView;
use reading::read_one;
use samples::{digests_of, numbers_of};
use std::io;

const KINDS: [Kind; 7] = [
    Kind::Empty,
    Kind::Split,
    Kind::Edge,
    Kind::Zone,
    Kind::XSpan,
    Kind::YSpan,
    Kind::Site,
];

fn main(rt: HostRuntime) -> io::Result<()> {
    for kind in KINDS {
        // Each turn is a case.
        for turn in 0..4 {
            show_kind(&rt, kind, turn)?;
        }
    }
    show_read(&rt, &[0, 0, 0, 7])?;
    show_read(&rt, &[255, 255, 255, 255])?;
    show_read(&rt, &[0, 0, 0, 0, 0])
}

/// The string of a kind with its sample numbers from a turn on, and what is read of each front of it.
fn show_kind(rt: &impl Print, kind: Kind, turn: usize) -> io::Result<()> {
    let shape = kind.shape();
    let numbers = numbers_of(turn);
    let digests = digests_of(turn);
    let number_count = usize::from(shape.numbers).min(4);
    let digest_count = usize::from(shape.successors).min(3);
    let mut buffer = [0u8; 116];
    let written = write_string(
        &mut buffer,
        0,
        u32::from(kind),
        &numbers[0..number_count],
        &digests[0..digest_count],
    );
    let Ok(length) = written else {
        return println!(rt; "not written");
    };
    let length = length.min(116);
    print!(rt; "string ")?;
    show_bytes(rt, &buffer[0..length])?;
    println!(rt; "")?;
    // Each cut is a case, and no place of a byte that is read.
    for cut in 0..=length {
        show_read(rt, &buffer[0..cut.min(116)])?;
    }
    Ok(())
}

fn show_read(rt: &impl Print, bytes: &[u8]) -> io::Result<()> {
    match read_one(bytes) {
        Ok(view) => show_view(rt, &view),
        Err(fault) => show_fault(rt, fault),
    }
}

fn show_view(rt: &impl Print, view: &NodeView) -> io::Result<()> {
    let begins = view.begins();
    let ends = view.ends();
    let kind = view.kind();
    print!(rt; "bytes {begins} to {ends}: kind {kind}")?;
    for number in (0..4).filter_map(|i| view.number(i)) {
        print!(rt; ", number {number}")?;
    }
    for digest in (0..3).filter_map(|i| view.digest(i)) {
        print!(rt; ", digest ")?;
        show_bytes(rt, digest)?;
    }
    println!(rt; "")
}

fn show_fault(rt: &impl Print, fault: Fault) -> io::Result<()> {
    let number = fault.number();
    let layer = fault.layer();
    let step = fault.step();
    let place = fault.place();
    println!(rt; "refused {number} ({layer}) at step {step}, byte {place}")
}

fn show_bytes(rt: &impl Print, bytes: &[u8]) -> io::Result<()> {
    for byte in bytes {
        print!(rt; "{byte:02x}")?;
    }
    Ok(())
}
