//! A proof written from a sheet that anybody may have written.

ghost use Rattle.std.specs.Prelude.{◌≡◌, ℕ, suc, ◌-◌, ◌≤◌, List, [], ◌∷◌, length, take, Ok};
ghost use Rattle.calls.specs.Proving.{all_bytes, node_proved, prove_answer, prove_buffer, proved_from, proved_strings};
ghost use Rattle.calls.specs.Sheets.{nodes_of, stored_digests};
ghost use Rattle.mirror.specs.Steps.{IsWritten, end_of, summed};
ghost use Rattle.reader.specs.Reading.{map_ok};
ghost use Rattle.search.specs.Node.{Node};
ghost use Rattle.slices.specs.Stacks.{contents};

use crate::asked::Asked;
use crate::waiting::Waiting;
use crate::ways::push_named;
use calls::outcomes::Proved;
use reader::Reader;
use refusal::Refusal;
use search::chart::Chart;
use search::sheet::SheetRecord;
use sheets::reading::sound_node;
use sheets::strings::write_node;
use slices::fill_rest;

/// Writes the strings of the nodes that a traversal by the question takes, and zeros after them; refused, zeros alone.
pub fn prove<C: Chart>(
    sheet: &[SheetRecord],
    count: usize,
    question: &C::Question,
    buffer: &mut [u8],
) -> Result<Proved, Refusal>
    ensures answer { result ≡ prove_answer C.Chart.judging sheet.now count question.now buffer.old }
    ensures after { buffer.new ≡ prove_buffer C.Chart.judging sheet.now count question.now buffer.old }
{
    let outcome = write_proof::<C>(sheet, count, question, buffer);
    let written = outcome.map_or(0, |proved| proved.bytes);
    fill_rest(buffer, written, 0);
    outcome
}

/// Writes the proof, or leaves whatever bytes where it is refused.
fn write_proof<C: Chart>(
    sheet: &[SheetRecord],
    count: usize,
    question: &C::Question,
    buffer: &mut [u8],
) -> Result<Proved, Refusal>
    ensures answer { result ≡ prove_answer C.Chart.judging sheet.now count question.now buffer.old }
    ensures stands { (strings : List (List ℕ)) → proved_strings C.Chart.judging sheet.now count question.now buffer.old ≡ Ok strings → take (length (all_bytes strings)) buffer.new ≡ all_bytes strings }
{
    if !C::is_within_bounds(question) {
        return Err(Refusal::QuestionOutOfBounds);
    }
    let asked = Asked::<C>::of_sheet(sheet, count, question)?;
    let room = buffer.len().min(Reader::LONGEST);
    write_strings(&asked, &mut buffer[..room])
}

/// Writes the strings of a traversal from the root on; the whole buffer is room for them.
fn write_strings<C: Chart>(asked: &Asked<'_, C>, buffer: &mut [u8]) -> Result<Proved, Refusal>
    ensures answer { result ≡ map_ok summed (proved_from C.Chart.judging asked.now.question.now (nodes_of C.Chart.judging asked.now.counted.now) (stored_digests asked.now.counted.now) (suc (length buffer.old)) (length buffer.old) ((length asked.now.counted.now - 1) ∷ [])) }
    ensures stands { (strings : List (List ℕ)) → proved_from C.Chart.judging asked.now.question.now (nodes_of C.Chart.judging asked.now.counted.now) (stored_digests asked.now.counted.now) (suc (length buffer.old)) (length buffer.old) ((length asked.now.counted.now - 1) ∷ []) ≡ Ok strings → take (length (all_bytes strings)) buffer.new ≡ all_bytes strings }
{
    let root = asked.counted.len() - 1;
    // Room of its own, lent to what waits: the library allocates nothing.
    let mut places = [0u32; 64];
    // At most 8,192 records are counted, so 32 bits hold the root's place.
    let mut waiting = Waiting::at_root(&mut places, root as u32);
    let mut proved = Proved {
        strings: 0,
        bytes: 0,
    };
    while let Some(place) = waiting.pop() {
        proved.bytes = take_node(asked, place, &mut waiting, buffer, proved.bytes)?;
        proved.strings += 1;
    }
    Ok(proved)
}

/// Takes the node at a place: writes its string, and puts the ways that it names on what waits.
fn take_node<C: Chart>(
    asked: &Asked<'_, C>,
    place: u32,
    waiting: &mut Waiting<'_>,
    buffer: &mut [u8],
    at: usize,
) -> Result<usize, Refusal>
    requires { at ≤ length buffer.old }
    ensures answer { result ≡ map_ok (end_of (stored_digests asked.now.counted.now) at) (node_proved C.Chart.judging asked.now.question.now (nodes_of C.Chart.judging asked.now.counted.now) (stored_digests asked.now.counted.now) (length buffer.old - at) place (contents waiting.old.stack)) }
    ensures leaves { (node : Node) → node_proved C.Chart.judging asked.now.question.now (nodes_of C.Chart.judging asked.now.counted.now) (stored_digests asked.now.counted.now) (length buffer.old - at) place (contents waiting.old.stack) ≡ Ok node → IsWritten C.Chart.judging asked.now.question.now (stored_digests asked.now.counted.now) node at (contents waiting.old.stack) (contents waiting.new.stack) buffer.old buffer.new }
{
    // A place has 32 bits, and no `From` makes a usize of them.
    let node = sound_node::<C>(asked.counted, place as usize)?;
    let end = write_node(asked.counted, &node, buffer, at).map_err(|_| Refusal::ProofBufferFull)?;
    push_named(asked, &node, waiting)?;
    Ok(end)
}
