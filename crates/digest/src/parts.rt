// A hash of a message that comes in parts.
ghost use Rattle.std.specs.Prelude.{◌≡◌, ℕ, List, [], length};
ghost use Rattle.digest.specs.Parts.{Offered};

use crate::Hash;
use refusal::Refusal;

// A state that takes the parts.
pub trait HashInParts: Hash + Drop {
    // The state has taken exactly these bytes.
    ghost taken: { Self → List ℕ → Type 0 };

    // How many bytes it has taken.
    ghost size: { Self → ℕ };

    // No byte is taken yet.
    fn new() -> Self
        ensures { taken result [] };

    // Takes a further part of the message, or refuses it.
    fn update(&mut self, part: &[u8]) -> Result<(), Refusal>
        ensures { Offered size taken self.old part.now result self.new };

    // The digest of the bytes taken.
    fn finish(self) -> [u8; 32]
        ensures { (bytes : List ℕ) → taken self bytes → result ≡ Self.digest bytes };

    // The count is theirs.
    ghost counted: { (state : Self) (bytes : List ℕ) → taken state bytes → size state ≡ length bytes };
}
