//! The nodes of a sheet.
ghost use Rattle.std.specs.Prelude.{◌≡◌, IfOk};
ghost use Rattle.calls.specs.Sheets.{all_before, is_count, node_in, nodes_of, sound_at};
ghost use Rattle.reader.specs.Reading.{map_ok};
ghost use Rattle.sheets.specs.Nodes.{IsRead, node_of, sound_node};

use node::Shape;
use refusal::Refusal;
use search::chart::Chart;
use search::drafting::usable_records;
use search::sheet::SheetRecord;

/// A node as it stands in a record. Fields past its shape are not read. What its kind is, only the chart knows.
#[derive(Clone, Copy)]
pub struct SheetNode {
    pub kind: u32,
    pub shape: Shape,
    pub numbers: [i32; 4],
    pub successors: [u32; 3],
}

impl SheetNode {
    /// Its numbers.
    pub fn numbers(&self) -> &[i32]
        ensures { result.now ≡ (node_of self.now).numbers }
    {
        &self.numbers[..usize::from(self.shape.numbers).min(4)]
    }

    /// The places of its successors.
    pub fn successors(&self) -> &[u32]
        ensures { result.now ≡ (node_of self.now).successors }
    {
        &self.successors[..usize::from(self.shape.successors).min(3)]
    }
}

/// Whether so many records can be counted: some, and no more than are usable.
pub fn is_count(sheet: &[SheetRecord], count: usize) -> bool
    ensures { result ≡ is_count sheet.now count }
{
    count > 0 && count <= usable_records(sheet)
}

/// The node at a place of the counted records. Refused where there is none, or it is not sound.
pub fn sound_node<C: Chart>(counted: &[SheetRecord], place: usize) -> Result<SheetNode, Refusal>
    ensures answer { map_ok node_of result ≡ sound_at C.Chart.judging (nodes_of C.Chart.judging counted.now) place }
    ensures read { IfOk result (λ node. IsRead C.Chart.judging place node) }
{
    let shown = counted.get(place).ok_or(Refusal::SheetUnsound)?;
    sound_record::<C>(shown, place)
}

fn sound_record<C: Chart>(shown: &SheetRecord, place: usize) -> Result<SheetNode, Refusal>
    ensures answer { map_ok node_of result ≡ sound_node C.Chart.judging place (node_in C.Chart.judging shown.now) }
    ensures read { IfOk result (λ node. IsRead C.Chart.judging place node) }
{
    let node = SheetNode {
        kind: shown.kind,
        shape: C::shape_of(shown.kind).ok_or(Refusal::SheetUnsound)?,
        numbers: shown.numbers,
        successors: shown.successors,
    };
    if !C::is_fit(node.kind, node.numbers()) || !all_before(node.successors(), place) {
        return Err(Refusal::SheetUnsound);
    }
    Ok(node)
}

fn all_before(successors: &[u32], place: usize) -> bool
    ensures { result ≡ all_before place successors.now }
{
    successors
        .iter()
        // A place has 32 bits, and no `From` makes a usize of them.
        .all(|successor| (*successor as usize) < place)
}
