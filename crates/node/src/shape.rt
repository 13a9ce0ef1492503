//! The shape of a string: how many numbers and how many successors' digests it has.

ghost use Rattle.std.specs.Prelude.{◌≡◌};
ghost use Rattle.node.specs.Kinds.{string_length};

/// At most four numbers and three successors in every kind of node that there is.
#[derive(Clone, Copy, Debug, PartialEq, Eq)]
pub struct Shape {
    pub numbers: u8,
    pub successors: u8,
}

impl Shape {
    /// How many bytes a string of this shape has.
    pub fn string_length(self) -> usize
        ensures { result ≡ string_length self }
    {
        4 + 4 * usize::from(self.numbers) + 32 * usize::from(self.successors)
    }
}
