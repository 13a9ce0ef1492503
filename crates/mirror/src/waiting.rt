//! The places that wait to be taken.

ghost use Rattle.std.specs.Prelude.{◌≡◌, [], ◌∷◌, length, OnOk, nat_le};
ghost use Rattle.calls.specs.Chain.{guard};
ghost use Rattle.refusal.specs.declared.Refusal.TheVariants.{StackFull};
ghost use Rattle.search.specs.Walk.{most_waiting};
ghost use Rattle.slices.specs.Stacks.{contents, first, others};

use refusal::Refusal;
use slices::Stack;

/// A stack of at most 64 places, the one that is taken next on top.
#[derive(Drop)]
pub(crate) struct Waiting<'a> {
    pub(crate) stack: Stack<'a, u32>,
    ghost room: { length stack.places.now ≡ most_waiting },
}

impl<'a> Waiting<'a> {
    /// The root waits alone.
    pub(crate) fn at_root(places: &'a mut [u32; 64], root: u32) -> Waiting<'a>
        ensures { contents result.stack ≡ root ∷ [] }
    {
        let mut stack = Stack::new(places);
        let _ = stack.push(root);
        Waiting { stack }
    }

    /// Refused if more than 64 would wait.
    pub(crate) fn push(&mut self, place: u32) -> Result<(), Refusal>
        ensures answer { result ≡ guard (nat_le (length (place ∷ contents self.old.stack)) most_waiting) StackFull }
        ensures after { OnOk result (contents self.new.stack ≡ place ∷ contents self.old.stack) }
    {
        self.stack.push(place).map_err(|_| Refusal::StackFull)
    }

    pub(crate) fn pop(&mut self) -> Option<u32>
        ensures answer { result ≡ first (contents self.old.stack) }
        ensures after { contents self.new.stack ≡ others (contents self.old.stack) }
    {
        self.stack.pop()
    }
}
