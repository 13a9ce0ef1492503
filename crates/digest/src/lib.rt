// What every hash shows: one fixed function from strings of up to 65,535 bytes to 32 bytes.
// Nothing is said about collisions, so code that is generic in the hash is proved for each.
#![tactic(auto)]

ghost use Rattle.std.specs.Prelude.{◌≡◌, ℕ, ◌<◌, List, length, slice_index};
ghost use Rattle.digest.specs.Hashing.{hashed};

mod length;
mod parts;

pub use length::check_length;
pub use parts::HashInParts;
use refusal::Refusal;

pub trait Hash {
    // The function, on lists of bytes.
    ghost digest: { List ℕ → List ℕ };

    // The digest of a message, or the refusal of one that is too long.
    fn hash(message: &[u8]) -> Result<[u8; 32], Refusal>
        ensures { result ≡ hashed digest message.now };

    // A digest has 32 bytes.
    ghost width: { (message : List ℕ) → length (digest message) ≡ 32 };

    // Each of them is below 256.
    ghost bytes: { (message : List ℕ) (place : ℕ) → slice_index (digest message) place < 256 };
}
