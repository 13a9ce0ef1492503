// The hashes, each with the name that its lines begin with.
use blake2s::Blake2s;
use digest::HashInParts;
use sha256::Sha256;

pub trait Named: HashInParts {
    const NAME: &'static str;
}

impl Named for Sha256 {
    const NAME: &'static str = "sha256";
}

impl Named for Blake2s {
    const NAME: &'static str = "blake2s";
}
