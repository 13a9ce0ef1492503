//! The kinds of nodes: nothing is here, a stone, none and a stone.
ghost use Rattle.std.specs.Prelude.{◌≡◌};
ghost use Rattle.toy_chart.specs.Kinds.{StandsFor, kind_number};

#[derive(Clone, Copy)]
pub(crate) enum Kind {
    Nothing,
    Stone,
    NoneAndStone,
}

#[derive(Clone, Copy)]
pub(crate) struct UnknownKind;

impl TryFrom<u32> for Kind {
    type Error = UnknownKind;

    ghost try_from_gives = { StandsFor };

    fn try_from(number: u32) -> Result<Kind, UnknownKind> {
        match number {
            0 => Ok(Kind::Nothing),
            1 => Ok(Kind::Stone),
            2 => Ok(Kind::NoneAndStone),
            _ => Err(UnknownKind),
        }
    }
}

impl From<Kind> for u32 {
    ghost from_gives = { λ kind number. number ≡ kind_number kind };

    fn from(kind: Kind) -> u32 {
        match kind {
            Kind::Nothing => 0,
            Kind::Stone => 1,
            Kind::NoneAndStone => 2,
        }
    }
}
