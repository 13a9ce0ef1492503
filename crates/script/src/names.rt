//! The names of chart kinds and hashes.
ghost use Rattle.std.specs.Prelude.{◌≡◌};
ghost use Rattle.std.specs.Str.{bytes_eq};
ghost use Rattle.script.specs.Command.{hash_named, kind_named};
ghost use Rattle.script.specs.Lines.{name_of_hash, name_of_kind};

use crate::command::{ChartKind, HashName};

// A line is bytes, so names are told and written as bytes, and not by `FromStr` and `Display`. Each table has its own two rows.

pub fn kind_named(word: &[u8]) -> Option<ChartKind>
    ensures { result ≡ kind_named word.now }
{
    match word {
        b"zone" => Some(ChartKind::Zone),
        b"site" => Some(ChartKind::Site),
        _ => None,
    }
}

#[tactic(auto, using(crate::proofs::Spelled::sha256_named, crate::proofs::Spelled::blake2s_named))]
pub fn hash_named(word: &[u8]) -> Option<HashName>
    ensures { result ≡ hash_named word.now }
{
    match word {
        b"sha256" => Some(HashName::Sha256),
        b"blake2s" => Some(HashName::Blake2s),
        _ => None,
    }
}

/// Whether two texts are the same.
pub fn same(a: &[u8], b: &[u8]) -> bool
    ensures { result ≡ bytes_eq a.now b.now }
{
    a == b
}

pub fn kind_name(kind: ChartKind) -> &'static str
    ensures { result.now ≡ name_of_kind kind }
{
    match kind {
        ChartKind::Zone => "zone",
        ChartKind::Site => "site",
    }
}

pub fn hash_name(hash: HashName) -> &'static str
    ensures { result.now ≡ name_of_hash hash }
{
    match hash {
        HashName::Sha256 => "sha256",
        HashName::Blake2s => "blake2s",
    }
}
