// What a hash answers: the digest as 64 hexadecimal digits, or the number of the refusal.
use refusal::Refusal;
use std::fmt;

#[derive(Clone, Copy)]
pub struct Outcome(pub Result<[u8; 32], Refusal>);

impl fmt::Display for Outcome {
    fn fmt<W: fmt::Write>(&self, f: &mut fmt::Formatter<W>) -> fmt::Result {
        match self.0 {
            Ok(digest) => {
                for byte in digest {
                    write!(f, "{byte:02x}")?;
                }
                Ok(())
            }
            Err(refusal) => {
                let number = u8::from(refusal);
                write!(f, "refused {number}")
            }
        }
    }
}
