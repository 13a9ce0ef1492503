//! What a run holds.

ghost use Rattle.std.specs.Prelude.{◌≡◌, ◌≤◌, [], length};
ghost use Rattle.slices.specs.Runs.{elements};

use super::Run;

impl<T: Copy, const N: usize> Run<T, N> {
    /// An empty run. `filler` stands in its places until something else does.
    pub fn new(filler: T) -> Run<T, N>
        ensures { elements result ≡ [] }
    {
        Run {
            places: [filler; N],
            len: 0,
        }
    }

    pub fn len(&self) -> usize
        ensures { result ≡ length (elements self.now) }
    {
        self.len
    }

    pub fn as_slice(&self) -> &[T]
        ensures elements { result.now ≡ elements self.now }
        ensures few { length result.now ≤ N }
    {
        &self.places[..self.len]
    }
}
