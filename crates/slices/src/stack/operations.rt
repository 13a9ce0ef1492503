//! What is done with a stack.

ghost use Rattle.std.specs.Prelude.{◌≡◌, [], length, OnErr};
ghost use Rattle.slices.specs.Stacks.{contents, pushed_answer, pushed_contents, pushed_places, popped_answer, popped_contents};

use super::Stack;

impl<'a, T: Copy> Stack<'a, T> {
    /// An empty stack in these places.
    pub fn new(places: &'a mut [T]) -> Stack<'a, T>
        ensures empty { contents result ≡ [] }
        ensures lent { result.places.now ≡ places.old }
        ensures same { result.places.ghost_name ≡ places.entry.ghost_name }
    {
        Stack { places, len: 0 }
    }

    /// How many entries wait.
    pub fn len(&self) -> usize
        ensures { result ≡ length (contents self.now) }
    {
        self.len
    }

    /// Puts `x` on top; it comes back where every place is taken, and then nothing changes.
    pub fn push(&mut self, x: T) -> Result<(), T>
        ensures answer { result ≡ pushed_answer self.old x }
        ensures after { contents self.new ≡ pushed_contents self.old x }
        ensures lent { self.new.places.now ≡ pushed_places self.old x }
        ensures unchanged { OnErr result (self.new ≡ self.old) }
        ensures same { self.new.places.ghost_name ≡ self.old.places.ghost_name }
    {
        if self.len >= self.places.len() {
            return Err(x);
        }
        self.places[self.len] = x;
        self.len += 1;
        Ok(())
    }

    /// Takes the newest entry off.
    pub fn pop(&mut self) -> Option<T>
        ensures answer { result ≡ popped_answer self.old }
        ensures after { contents self.new ≡ popped_contents self.old }
        ensures lent { self.new.places.now ≡ self.old.places.now }
        ensures same { self.new.places.ghost_name ≡ self.old.places.ghost_name }
    {
        if self.len == 0 {
            return None;
        }
        self.len -= 1;
        Some(self.places[self.len])
    }
}
