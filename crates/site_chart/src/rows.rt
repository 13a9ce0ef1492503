//! Sites in the order of an axis, no more than a register holds.
ghost use Rattle.std.specs.Prelude.{◌≤◌, length};

use crate::orders::Along;

#[derive(Drop)]
pub struct Row<'a, A> {
    pub sites: &'a [Along<A>],
    ghost few: { length sites.now ≤ 128 },
}
