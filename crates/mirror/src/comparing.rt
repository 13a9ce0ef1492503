//! A proof compared with what a sheet would prove. Anybody may have written either.

ghost use Rattle.std.specs.Prelude.{◌≡◌, ℕ, suc, ◌-◌, ◌≤◌, [], ◌∷◌, length, Ok};
ghost use Rattle.std.specs.declared.ops.ControlFlow.TheVariants.{Continue};
ghost use Rattle.calls.specs.Comparing.{compare_answer, compared_from};
ghost use Rattle.calls.specs.Sheets.{nodes_of, sound_at, stored_digests};
ghost use Rattle.digest.specs.Hashing.{longest};
ghost use Rattle.mirror.specs.Comparisons.{node_compared};
ghost use Rattle.mirror.specs.Positions.{position_at};
ghost use Rattle.search.specs.Node.{Node};
ghost use Rattle.search.specs.Walk.{waiting_after};
ghost use Rattle.slices.specs.Stacks.{contents};

use crate::asked::Asked;
use crate::rest::Rest;
use crate::waiting::Waiting;
use crate::ways::push_named;
use calls::outcomes::Comparison;
use digest::Hash;
use reader::Reader;
use refusal::Refusal;
use search::chart::Chart;
use search::sheet::SheetRecord;
use sheets::reading::sound_node;
use sheets::strings::{LONGEST_STRING, string_of};
use std::ops::ControlFlow;

/// Compares a proof with the strings of the nodes that a traversal by the question takes. It reads no node's own stored digest.
pub fn cross_check<H: Hash, C: Chart>(
    sheet: &[SheetRecord],
    count: usize,
    question: &C::Question,
    proof: &[u8],
) -> Result<Comparison, Refusal>
    ensures { result ≡ compare_answer C.Chart.judging H.Hash.digest sheet.now count question.now proof.now }
{
    if !C::is_within_bounds(question) {
        return Err(Refusal::QuestionOutOfBounds);
    }
    if proof.len() > Reader::LONGEST {
        return Err(Refusal::ProofTooLong);
    }
    let asked = Asked::<C>::of_sheet(sheet, count, question)?;
    compare_strings::<H, C>(&asked, proof)
}

// Its loop is not one with that of writing: the step ends in three ways here and in two there, and the shared part is two lines.
/// Compares string by string from the root on. Bytes left over differ from what the root proves.
fn compare_strings<H: Hash, C: Chart>(
    asked: &Asked<'_, C>,
    proof: &[u8],
) -> Result<Comparison, Refusal>
    requires { length proof.now ≤ longest }
    ensures { result ≡ compared_from C.Chart.judging H.Hash.digest asked.now.question.now (nodes_of C.Chart.judging asked.now.counted.now) (stored_digests asked.now.counted.now) (suc (length proof.now)) (position_at proof.now 0) ((length asked.now.counted.now - 1) ∷ []) }
{
    let root = asked.counted.len() - 1;
    // Room of its own, lent to what waits: the library allocates nothing.
    let mut places = [0u32; 64];
    // At most 8,192 records are counted, so 32 bits hold the root's place.
    let mut waiting = Waiting::at_root(&mut places, root as u32);
    let mut at = 0;
    while let Some(place) = waiting.pop() {
        let rest = Rest { proof, at };
        match compare_node::<H, C>(asked, place, &mut waiting, &rest)? {
            ControlFlow::Continue(end) => at = end,
            ControlFlow::Break(comparison) => return Ok(comparison),
        }
    }
    if at < proof.len() {
        return Ok(Comparison::Difference {
            place: root,
            byte: at,
        });
    }
    Ok(Comparison::Same)
}

/// Compares the string of the node at a place. Where the proof goes on with it, puts the ways that it names on what waits, and
/// gives the place of the proof after it.
fn compare_node<H: Hash, C: Chart>(
    asked: &Asked<'_, C>,
    place: u32,
    waiting: &mut Waiting<'_>,
    rest: &Rest<'_>,
) -> Result<ControlFlow<Comparison, usize>, Refusal>
    ensures answer { result ≡ node_compared C.Chart.judging H.Hash.digest asked.now.question.now (nodes_of C.Chart.judging asked.now.counted.now) (stored_digests asked.now.counted.now) place (position_at rest.now.proof.now rest.now.at) (contents waiting.old.stack) }
    ensures waits { (node : Node) (end : ℕ) → result ≡ Ok (Continue end) → sound_at C.Chart.judging (nodes_of C.Chart.judging asked.now.counted.now) place ≡ Ok node → contents waiting.new.stack ≡ waiting_after C.Chart.judging asked.now.question.now node (contents waiting.old.stack) }
{
    // A place has 32 bits, and no `From` makes a usize of them.
    let node = sound_node::<C>(asked.counted, place as usize)?;
    // Every string fits, and nothing is allocated.
    let mut room = [0; LONGEST_STRING];
    let string = string_of(asked.counted, &node, &mut room);
    if !rest.goes_on_with(string) {
        return Ok(ControlFlow::Break(rest.differs_at::<H, C>(place as usize, string)));
    }
    push_named(asked, &node, waiting)?;
    Ok(ControlFlow::Continue(rest.at + string.len()))
}
