// Digests of messages that are there whole.
use crate::hashes::Named;
use crate::messages::counting;
use crate::outcome::Outcome;
use std::io;

// A line with the name, the message's length and the outcome.
fn report<H: Named>(rt: HostRuntime, message: &[u8]) -> io::Result<()> {
    let name = H::NAME;
    let size = message.len();
    let outcome = Outcome(H::hash(message));
    println!(rt; "{name} {size} {outcome}")
}

// Messages that the standards and their publishers give digests of.
pub fn published<H: Named>(rt: HostRuntime) -> io::Result<()> {
    report::<H>(rt, b"")?;
    report::<H>(rt, b"abc")?;
    report::<H>(
        rt,
        b"abcdbcdecdefdefgefghfghighijhijkijkljklmklmnlmnomnopnopq",
    )?;
    report::<H>(
        rt,
        b"abcdefghbcdefghicdefghijdefghijkefghijklfghijklmghijklmnhijklmnoijklmnopjklmnopqklmnopqrlmnopqrsmnopqrstnopqrstu",
    )
}

pub fn every_length<H: Named>(rt: HostRuntime) -> io::Result<()> {
    // Each size is a case.
    for size in 0..301 {
        let message = counting(rt.alloc(), size)?;
        report::<H>(rt, message.as_slice())?;
    }
    Ok(())
}

// Up to the longest message, and one that is longer.
pub fn long<H: Named>(rt: HostRuntime) -> io::Result<()> {
    for size in [1000, 65535, 65536] {
        let message = counting(rt.alloc(), size)?;
        report::<H>(rt, message.as_slice())?;
    }
    Ok(())
}
