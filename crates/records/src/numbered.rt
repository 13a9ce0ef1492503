//! Records by their numbers.
ghost use Rattle.std.specs.Prelude.{◌≡◌, ◌-◌, length, take, ℤ};
ghost use Rattle.records.specs.Held.{left_of, place_from, remove_refusal, taken_out};
ghost use Rattle.records.specs.Outcome.{answered, unless_refused};
ghost use Rattle.slices.specs.Runs.{elements};

use refusal::Refusal;
use slices::{Run, remove};

pub trait Numbered {
    ghost number_of: { Self → ℤ };

    fn number(&self) -> i64
        ensures { result ≡ number_of self.now };
}

/// The first place of a record with that number.
pub fn place_of<T: Numbered>(records: &[T], number: i64) -> Option<usize>
    ensures { result ≡ place_from 0 T.Numbered.number_of number records.now }
{
    records.iter().position(|record| record.number() == number)
}

/// Takes the record of that number out of the run of the first `len` elements, or of all if there
/// are fewer, and gives the run's new length.
pub fn take_out<T: Numbered + Copy>(
    kept: &mut [T],
    len: usize,
    number: i64,
) -> Result<usize, Refusal>
    ensures answer { result ≡ answered (remove_refusal T.Numbered.number_of (take len kept.old) number) (length (take len kept.old) - 1) }
    ensures after { kept.new ≡ unless_refused (remove_refusal T.Numbered.number_of (take len kept.old) number) (left_of T.Numbered.number_of number len kept.old) kept.old }
{
    let run = len.min(kept.len());
    let Some(at) = place_of(&kept[..run], number) else {
        return Err(Refusal::NumberNotHeld);
    };
    match remove(kept, run, at) {
        Ok(shorter) => Ok(shorter),
        Err(_) => unreachable(),
    }
}

/// The same of a run in places of its own. Refused, the run is as it was.
pub fn take_out_of_run<T: Numbered + Copy, const N: usize>(
    kept: &mut Run<T, N>,
    number: i64,
) -> Result<(), Refusal>
    ensures answer { result ≡ answered (remove_refusal T.Numbered.number_of (elements kept.old) number) tt }
    ensures after { elements kept.new ≡ unless_refused (remove_refusal T.Numbered.number_of (elements kept.old) number) (taken_out T.Numbered.number_of number (elements kept.old)) (elements kept.old) }
{
    let Some(at) = place_of(kept.as_slice(), number) else {
        return Err(Refusal::NumberNotHeld);
    };
    match kept.remove(at) {
        Ok(()) => Ok(()),
        Err(_) => unreachable(),
    }
}
