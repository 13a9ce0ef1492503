//! Nodes drawn into the records of a sheet, each once.
ghost use Rattle.std.specs.Prelude.{◌≡◌};
ghost use Rattle.search.specs.Drafting.{alike_records, drafted_record, drawn_in, drawn_so_far, place_of_alike_record, sheet_with, DrawsRecord};
ghost use Rattle.search.specs.DrawnNodes.{draft_answer};
ghost use Rattle.search.specs.Sheet.{usable};

use crate::sheet::SheetRecord;
use refusal::Refusal;

/// Of a longer sheet only the first records are usable.
const USABLE: usize = 8192;

/// Whether two records are alike in kind, numbers and successor places.
pub fn is_alike(sought: &SheetRecord, other: &SheetRecord) -> bool
    ensures { result ≡ alike_records sought.now other.now }
{
    sought.kind == other.kind
        && sought.numbers == other.numbers
        && sought.successors == other.successors
}

/// The first place of an alike record.
pub fn find_alike(records: &[SheetRecord], sought: &SheetRecord) -> Option<usize>
    ensures { result ≡ place_of_alike_record sought.now records.now }
{
    records.iter().position(|other| is_alike(sought, other))
}

/// How many records of a sheet are usable.
pub fn usable_records(sheet: &[SheetRecord]) -> usize
    ensures { result ≡ usable sheet.now }
{
    USABLE.min(sheet.len())
}

/// A lent sheet, and how many of its records are drawn so far, from the first on.
#[derive(Drop)]
pub struct Draft<'a> {
    sheet: &'a mut [SheetRecord],
    len: usize,
}

impl<'a> Draft<'a> {
    /// Nothing is drawn yet.
    pub fn new(sheet: &'a mut [SheetRecord]) -> Draft<'a>
        ensures same_sheet { result.sheet.ghost_name ≡ sheet.entry.ghost_name }
        ensures untouched { result.sheet.now ≡ sheet.old }
        ensures none { result.len ≡ 0 }
    {
        Draft { sheet, len: 0 }
    }

    /// The first `len` records are drawn already, or as many as are usable.
    pub fn going_on(sheet: &'a mut [SheetRecord], len: usize) -> Draft<'a>
        ensures same_sheet { result.sheet.ghost_name ≡ sheet.entry.ghost_name }
        ensures untouched { result.sheet.now ≡ sheet.old }
        ensures begun { result.len ≡ len }
    {
        Draft { sheet, len }
    }

    /// How many records are drawn: at first as many as were named, and after a node as many as stand then.
    pub fn len(&self) -> usize
        ensures { result ≡ self.now.len }
    {
        self.len
    }

    /// The records drawn so far.
    fn drawn(&self) -> &[SheetRecord]
        ensures { result.now ≡ drawn_in self.now }
    {
        &self.sheet[..self.len.min(self.room())]
    }

    /// How many records may be drawn in all.
    fn room(&self) -> usize
        ensures { result ≡ usable self.now.sheet.now }
    {
        usable_records(self.sheet)
    }

    /// Draws a node behind those drawn so far and gives its place, unless it is drawn already and has a place.
    /// Refused when it is new and no usable record is left, and then all is as it was.
    pub fn draw(&mut self, node: SheetRecord) -> Result<u32, Refusal>
        ensures { DrawsRecord self.old self.new result node }
    {
        let drawn = self.drawn();
        let run = drawn.len();
        let known = find_alike(drawn, &node);
        let room = self.room();
        self.len = run;
        // No more than 8,192 records are usable, so 32 bits hold a place.
        if let Some(place) = known {
            return Ok(place as u32);
        }
        if run >= room {
            return Err(Refusal::SheetTooSmall);
        }
        self.sheet[run] = node;
        self.len += 1;
        Ok(run as u32)
    }
}

/// The place of a node, and how many records are drawn so far.
#[derive(Clone, Copy)]
pub struct Drawn {
    pub place: u32,
    pub len: usize,
}

/// Draws a node behind the first `len` records of a sheet and gives its place, unless it is drawn already and has a place.
/// Refused when it is new and no usable record is left, and then all is as it was.
pub fn draw_node(sheet: &mut [SheetRecord], len: usize, node: SheetRecord) -> Result<Drawn, Refusal>
    ensures answer { result ≡ draft_answer sheet.old (drafted_record (drawn_so_far len sheet.old) node) }
    ensures after { sheet.new ≡ sheet_with sheet.old (drafted_record (drawn_so_far len sheet.old) node).records }
{
    let mut draft = Draft::going_on(sheet, len);
    let place = draft.draw(node)?;
    Ok(Drawn {
        place,
        len: draft.len(),
    })
}
