// What holds of the orders of this crate.
ghost use Rattle.geometry.specs.Rank.{FractionsAreOrdered, CrossingsAreOrdered, LyingUnderIsOrdered};

pub fn fractions_are_ordered() -> u8
    ensures { FractionsAreOrdered }
{
    0
}

pub fn crossings_are_ordered() -> u8
    ensures { CrossingsAreOrdered }
{
    0
}

pub fn lying_under_is_ordered() -> u8
    ensures { LyingUnderIsOrdered }
{
    0
}
