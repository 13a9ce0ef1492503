// Digests of a message of 200 bytes in two parts, cut at every place, and of one that grows too long.
ghost use Rattle.std.specs.Prelude.{◌≡◌, ◌++◌};
ghost use Rattle.digest.specs.Hashing.{hashed};

use crate::hashes::Named;
use crate::messages::counting;
use crate::outcome::Outcome;
use digest::HashInParts;
use refusal::Refusal;
use std::io;

// The digest of two parts joined, which are nowhere copied.
fn hash_of_two<H: HashInParts>(first: &[u8], second: &[u8]) -> Result<[u8; 32], Refusal>
    ensures { result ≡ hashed H.digest (first.now ++ second.now) }
{
    let mut state = H::new();
    state.update(first)?;
    state.update(second)?;
    Ok(state.finish())
}

// A line with the name, the lengths of the parts and the outcome.
fn report<H: Named>(rt: HostRuntime, first: &[u8], second: &[u8]) -> io::Result<()> {
    let name = H::NAME;
    let (front, back) = (first.len(), second.len());
    let outcome = Outcome(hash_of_two::<H>(first, second));
    println!(rt; "{name} {front}+{back} {outcome}")
}

pub fn in_parts<H: Named>(rt: HostRuntime) -> io::Result<()> {
    let message = counting(rt.alloc(), 200)?;
    // Each cut is a case, and no place of a byte that is read.
    for cut in 0..message.len() {
        let (first, second) = message.as_slice().split_at(cut);
        report::<H>(rt, first, second)?;
    }
    let long = counting(rt.alloc(), 65535)?;
    report::<H>(rt, long.as_slice(), b"")?;
    report::<H>(rt, long.as_slice(), b"a")
}
