//! The ways that a node's judgement names, put on what waits.

ghost use Rattle.std.specs.Prelude.{◌≡◌, ◌<◌, length, OnOk, nat_le};
ghost use Rattle.calls.specs.Chain.{guard};
ghost use Rattle.refusal.specs.declared.Refusal.TheVariants.{StackFull};
ghost use Rattle.search.specs.Judging.{Judgeable};
ghost use Rattle.search.specs.Verdict.{ways_of};
ghost use Rattle.search.specs.Walk.{most_waiting, onto, waiting_after};
ghost use Rattle.sheets.specs.Nodes.{node_of};
ghost use Rattle.slices.specs.Stacks.{contents};
ghost use Rattle.std.specs.List.{AllByRecursion};

use crate::asked::Asked;
use crate::waiting::Waiting;
use refusal::Refusal;
use search::chart::Chart;
use search::verdict::Ways;
use sheets::reading::SheetNode;

/// Judges a node, and puts the ways that it names on what waits. Refused if more than 64 would wait.
pub(crate) fn push_named<C: Chart>(
    asked: &Asked<'_, C>,
    node: &SheetNode,
    waiting: &mut Waiting<'_>,
) -> Result<(), Refusal>
    requires judgeable { Judgeable C.Chart.judging node.now.shape node.now.kind (node_of node.now).numbers }
    requires joined { length (node_of node.now).successors ≡ node.now.shape.successors }
    ensures answer { result ≡ guard (nat_le (length (waiting_after C.Chart.judging asked.now.question.now (node_of node.now) (contents waiting.old.stack))) most_waiting) StackFull }
    ensures after { OnOk result (contents waiting.new.stack ≡ waiting_after C.Chart.judging asked.now.question.now (node_of node.now) (contents waiting.old.stack)) }
{
    let verdict = C::judge(asked.question, node.kind, node.numbers());
    push_ways(waiting, node.successors(), verdict.ways)
}

/// Puts the places that are named on what waits, so that the first named is taken next.
fn push_ways(waiting: &mut Waiting<'_>, successors: &[u32], ways: Ways) -> Result<(), Refusal>
    requires { AllByRecursion (λ way. way < length successors.now) (ways_of ways) }
    ensures answer { result ≡ guard (nat_le (length (onto successors.now (ways_of ways) (contents waiting.old.stack))) most_waiting) StackFull }
    ensures after { OnOk result (contents waiting.new.stack ≡ onto successors.now (ways_of ways) (contents waiting.old.stack)) }
{
    match ways {
        Ways::Nowhere => Ok(()),
        Ways::To(way) => waiting.push(successors[usize::from(way)]),
        Ways::ToBoth(first, second) => {
            waiting.push(successors[usize::from(second)])?;
            waiting.push(successors[usize::from(first)])
        }
    }
}
