//! What the outcomes of the calls mean, for every chart kind and every hash.
ghost use Rattle.calls.specs.Meaning.{PublishedSheetsShowTheirFigure, HonestProofsAreWritten, HonestProofsAreAccepted, AcceptedProofsAreHonest};
ghost use Rattle.calls.specs.Meaning.{ProofsAreWalks, ClashesAreCollisions, SameProofsAreWalks, TurnsSuffice};

use search::chart::Chart;

pub fn published_sheets_show_their_figure<C: Chart>() -> u8
    ensures { PublishedSheetsShowTheirFigure C.Chart.judging }
{
    0
}

pub fn proofs_are_walks<C: Chart>() -> u8
    ensures { ProofsAreWalks C.Chart.judging }
{
    0
}

pub fn honest_proofs_are_written<C: Chart>() -> u8
    ensures { HonestProofsAreWritten C.Chart.judging }
{
    0
}

pub fn honest_proofs_are_accepted<C: Chart>() -> u8
    ensures { HonestProofsAreAccepted C.Chart.judging }
{
    0
}

pub fn accepted_proofs_are_honest<C: Chart>() -> u8
    ensures { AcceptedProofsAreHonest C.Chart.judging }
{
    0
}

pub fn clashes_are_collisions<C: Chart>() -> u8
    ensures { ClashesAreCollisions C.Chart.judging }
{
    0
}

pub fn same_proofs_are_walks<C: Chart>() -> u8
    ensures { SameProofsAreWalks C.Chart.judging }
{
    0
}

pub fn turns_suffice<C: Chart>() -> u8
    ensures { TurnsSuffice C.Chart.judging }
{
    0
}
