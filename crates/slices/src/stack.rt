//! A stack in places that are lent to it.

ghost use Rattle.std.specs.Prelude.{◌≤◌, length};

mod operations;

/// A stack whose entries stand in a lent slice: the oldest at place 0, the newest at place
/// `len - 1`. What stands behind it is free.
#[derive(Drop)]
pub struct Stack<'a, T> {
    places: &'a mut [T],
    len: usize,
    ghost within: { len ≤ length places.now },
}
