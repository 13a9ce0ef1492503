//! Shapes are small, so every string is short enough for every hash.

ghost use Rattle.node.specs.Kinds.{ShapesAreSmall};
ghost use Rattle.node.specs.Sizes.{StringsAreHashed, StringsAreShort};

pub fn shapes_are_small() -> u8
    ensures { ShapesAreSmall }
{
    0
}

pub fn strings_are_short() -> u8
    ensures { StringsAreShort }
{
    0
}

pub fn strings_are_hashed() -> u8
    ensures { StringsAreHashed }
{
    0
}
