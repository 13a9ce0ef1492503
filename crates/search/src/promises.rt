//! What is true of every chart kind, and of every figure that is made from a rose.
ghost use Rattle.search.specs.Drafting.{DraftsAreFigures};
ghost use Rattle.search.specs.Honest.{HonestProofsAreUnique, StringsHaveTheirBytes};
ghost use Rattle.search.specs.Laws.{SameMembersSameList};
ghost use Rattle.search.specs.Making.{RootIsLast, RosesStandInTheirFigures};
ghost use Rattle.search.specs.Visit.{CrowdsAreAllowed, CrowdsAreSmall, RosesAreWalked, RosesMakeFigures};
ghost use Rattle.search.specs.Walk.{WalksHaveOneResult};

use crate::chart::Chart;

pub fn root_is_last() -> u8
    ensures last { RootIsLast }
    ensures stands { RosesStandInTheirFigures }
{
    0
}

pub fn roses_are_walked<C: Chart>() -> u8
    ensures figures { RosesMakeFigures C.Chart.judging }
    ensures walks { RosesAreWalked C.Chart.judging }
    ensures crowds { CrowdsAreAllowed C.Chart.judging }
    ensures levels { CrowdsAreSmall C.Chart.judging }
{
    0
}

pub fn drafts_are_figures<C: Chart>() -> u8
    ensures { DraftsAreFigures C.Chart.judging }
{
    0
}

pub fn walks_have_one_result<C: Chart>() -> u8
    ensures walks { WalksHaveOneResult C.Chart.judging }
    ensures proofs { HonestProofsAreUnique C.Chart.judging }
{
    0
}

pub fn strings_have_their_bytes<C: Chart>() -> u8
    ensures { StringsHaveTheirBytes C.Chart.judging }
{
    0
}

pub fn same_members_are_the_same_list<C: Chart>() -> u8
    ensures { SameMembersSameList C.Chart.drawing }
{
    0
}
