//! An element taken out of a run, the first `len` elements of a slice.

ghost use Rattle.std.specs.Prelude.{◌≡◌, ◌-◌, ◌<◌, ◌≤◌, Bool, true, length, take, IfOk, MatchResult};
ghost use Rattle.slices.specs.Order.{rising};
ghost use Rattle.slices.specs.Removal.{removed_length, removed_slice};
ghost use Rattle.std.specs.List.{remove};

/// The run has no such place.
#[derive(Clone, Copy)]
pub struct NoSuchPlace;

/// Takes the element at place `at` out of the run of the first `len` elements:
/// those after it in the run move down by one, and the new length is given.
/// Refused when the run has no such place or is longer than the slice.
pub fn remove<T: Copy>(run: &mut [T], len: usize, at: usize) -> Result<usize, NoSuchPlace>
    ensures answer { result ≡ removed_length run.old len at }
    ensures after { run.new ≡ removed_slice run.old len at }
    ensures place { MatchResult result (λ n. (at < len) × (len ≤ length run.old) × (n ≡ len - 1)) (λ _. (len ≤ length run.old → len ≤ at)) }
    ensures removing { IfOk result (λ n. take n run.new ≡ remove (take len run.old) at) }
    ensures rises { IfOk result (λ n. (at_most : T → T → Bool) → rising at_most (take len run.old) ≡ true → rising at_most (take n run.new) ≡ true) }
{
    if len > run.len() || at >= len {
        return Err(NoSuchPlace);
    }
    run.copy_within(at + 1..len, at);
    Ok(len - 1)
}
