//! The kinds of nodes.

ghost use Rattle.std.specs.Prelude.{◌≡◌};
ghost use Rattle.node.specs.Kinds.{NumbersNameKinds, StandsFor, number_of, shape_of};

use crate::shape::Shape;

#[derive(Clone, Copy, Debug, PartialEq, Eq)]
pub enum Kind {
    Empty,
    Split,
    Edge,
    Zone,
    XSpan,
    YSpan,
    Site,
}

/// A number that stands for no kind.
#[derive(Clone, Copy, Debug, PartialEq, Eq)]
pub struct KindNotKnown(pub u32);

/// The kind that a number stands for in a string.
impl TryFrom<u32> for Kind {
    type Error = KindNotKnown;

    ghost try_from_gives = { StandsFor };

    fn try_from(number: u32) -> Result<Kind, KindNotKnown> {
        match number {
            0 => Ok(Kind::Empty),
            1 => Ok(Kind::Split),
            2 => Ok(Kind::Edge),
            3 => Ok(Kind::Zone),
            4 => Ok(Kind::XSpan),
            5 => Ok(Kind::YSpan),
            6 => Ok(Kind::Site),
            _ => Err(KindNotKnown(number)),
        }
    }
}

/// The number that stands for it in a string.
impl From<Kind> for u32 {
    ghost from_gives = { λ kind number. number ≡ number_of kind };

    fn from(kind: Kind) -> u32 {
        match kind {
            Kind::Empty => 0,
            Kind::Split => 1,
            Kind::Edge => 2,
            Kind::Zone => 3,
            Kind::XSpan => 4,
            Kind::YSpan => 5,
            Kind::Site => 6,
        }
    }
}

impl Kind {
    /// The shape of its strings.
    pub fn shape(self) -> Shape
        ensures { result ≡ shape_of self }
    {
        let (numbers, successors) = match self {
            Kind::Empty => (0, 0),
            Kind::Split => (1, 2),
            Kind::Edge => (4, 2),
            Kind::Zone => (1, 0),
            Kind::XSpan => (2, 3),
            Kind::YSpan => (2, 2),
            Kind::Site => (3, 0),
        };
        Shape {
            numbers,
            successors,
        }
    }
}

pub fn numbers_name_kinds() -> u8
    ensures { NumbersNameKinds }
{
    0
}
