//! A run in places of its own.

ghost use Rattle.std.specs.Prelude.{◌≡◌, ◌≤◌, ⊤};

use std::alloc::AllocError;

mod changes;
mod contents;

/// At most `N` elements: the first `len` of its places. What stands behind them is free.
#[derive(Copy)]
pub struct Run<T: Copy, const N: usize> {
    places: [T; N],
    len: usize,
    ghost within: { len ≤ N },
}

impl<T: Copy, const N: usize> Clone for Run<T, N> {
    ghost is_clone = { λ a b. b ≡ a };

    ghost is_infallible = { λ _. ⊤ };

    fn clone(&self) -> Result<Self, AllocError> {
        Ok(*self)
    }
}
