//! The digest of a message.
ghost use Rattle.std.specs.Prelude.{◌≡◌, ◌++◌, OnOk};
ghost use Rattle.digest.specs.Hashing.{hashed};
ghost use Rattle.script.specs.Lines.{ended};
ghost use Rattle.chart.specs.Session.{digest_line, function_of};

use byte_commands::write::write_digest;
use digest::Hash;
use hex_text::decode::decode;
use refusal::Refusal;
use script::command::HashName;
use script::reply::Reply;
use script::write::write_reply;
use std::alloc::{AllocError, Global};

/// Prints the digest of a message in hex, or that it is too long.
pub fn answer_digest(
    heap: Global,
    hash: HashName,
    message: &[u8],
    out: &mut Vec<u8>,
) -> Result<(), AllocError>
    ensures { OnOk result (out.new.items ≡ out.old.items ++ ended (digest_line hash message.now)) }
{
    let mut bytes = Vec::new(heap);
    decode(message, &mut bytes)?;
    match hash_by_name(hash, &bytes) {
        Ok(digest) => write_digest(out, &digest),
        Err(refusal) => write_reply(out, Reply::Refused(refusal)),
    }
}

fn hash_by_name(hash: HashName, message: &[u8]) -> Result<[u8; 32], Refusal>
    ensures { result ≡ hashed (function_of hash) message.now }
{
    match hash {
        HashName::Sha256 => <sha256::Sha256 as Hash>::hash(message),
        HashName::Blake2s => <blake2s::Blake2s as Hash>::hash(message),
    }
}
