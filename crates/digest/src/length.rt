// How long a message may be.
ghost use Rattle.std.specs.Prelude.{◌≡◌};
ghost use Rattle.digest.specs.Hashing.{if_fits};

use refusal::Refusal;

const LONGEST: usize = 65535;

// Whether a hash takes a message of `size` bytes.
pub fn check_length(size: usize) -> Result<(), Refusal>
    ensures { result ≡ if_fits size tt }
{
    if size > LONGEST {
        return Err(Refusal::MessageTooLong);
    }
    Ok(())
}
