//! One string read as a check reads it.

ghost use Rattle.std.specs.Prelude.{◌≡◌};
ghost use Rattle.node_cases.specs.OneString.{known_kind, one_string};
ghost use Rattle.reader.specs.Reading.{map_ok};
ghost use Rattle.reader.specs.Views.{seen_in};

use fault::{Fault, SearchFault, at_step, at_string};
use node::{Kind, KindNotKnown};
use reader::{NodeView, Reader};

/// The bytes as one string and nothing else.
pub fn read_one(bytes: &[u8]) -> Result<NodeView<'_>, Fault>
    ensures { map_ok seen_in result ≡ one_string bytes.now }
{
    let mut reader = Reader::new(bytes)?;
    let number = at_step(1, reader.read_kind())?;
    let kind = at_string(1, reader.place(), known_kind(number))?;
    let view = at_step(1, reader.read_rest(kind.shape()))?;
    at_step(1, reader.finish())?;
    Ok(view)
}

fn known_kind(number: u32) -> Result<Kind, SearchFault>
    ensures { result ≡ known_kind number }
{
    Kind::try_from(number).map_err(|KindNotKnown(number)| SearchFault::KindNotKnown(number))
}
