//! A chart of at most one stone: it shows that what every chart kind shows can be shown.
#![tactic(auto)]

ghost use Rattle.std.specs.Prelude.{◌≡◌, [], ◌∷◌, pos};
ghost use Rattle.search.specs.Drafting.{DrawsRose};
ghost use Rattle.search.specs.Sheet.{record_of};
ghost use Rattle.toy_chart.specs.Stones.{judging as stone_judging, drawing as stone_drawing, held as stones_held, rose_of, listed};
ghost use Rattle.toy_chart.specs.Lawful;

mod kind;

use crate::kind::Kind;
use node::Shape;
use records::record_number::RecordNumber;
use refusal::Refusal;
use search::chart::Chart;
use search::drafting::Draft;
use search::sheet::SheetRecord;
use search::verdict::Verdict;

#[derive(Clone, Copy)]
pub struct Stone {
    pub number: i64,
}

#[derive(Clone, Copy)]
pub struct StoneChart {
    stone: Option<RecordNumber>,
}

impl Chart for StoneChart {
    type Record = Stone;

    type Question = bool;

    ghost judging = { stone_judging };

    ghost drawing = { stone_drawing };

    ghost held = { stones_held };

    ghost lawful = { Lawful.lawful };

    fn new() -> StoneChart {
        StoneChart { stone: None }
    }

    fn add(&mut self, from: &Stone) -> Result<(), Refusal> {
        let Some(number) = RecordNumber::new(from.number) else {
            return Err(Refusal::FieldOutOfRange);
        };
        match self.stone.map(|stone| stone == number) {
            Some(true) => Err(Refusal::NumberHeld),
            Some(false) => Err(Refusal::RegisterFull),
            None => {
                self.stone = Some(number);
                Ok(())
            }
        }
    }

    fn remove(&mut self, number: i64) -> Result<(), Refusal> {
        match self.stone {
            Some(stone) if i64::from(stone.value()) == number => {
                self.stone = None;
                Ok(())
            }
            _ => Err(Refusal::NumberNotHeld),
        }
    }

    fn is_within_bounds(_question: &bool) -> bool {
        true
    }

    fn shape_of(kind: u32) -> Option<Shape> {
        let (numbers, successors) = match Kind::try_from(kind) {
            Ok(Kind::Nothing) => (0, 0),
            Ok(Kind::Stone) => (1, 0),
            Ok(Kind::NoneAndStone) => (0, 2),
            Err(_) => return None,
        };
        Some(Shape {
            numbers,
            successors,
        })
    }

    fn is_fit(kind: u32, numbers: &[i32]) -> bool {
        match Kind::try_from(kind) {
            Ok(Kind::Stone) => numbers.len() == 1 && numbers[0] >= 1 && numbers[0] <= 65_535,
            Ok(_) => numbers.is_empty(),
            Err(_) => false,
        }
    }

    fn judge(_question: &bool, kind: u32, numbers: &[i32]) -> Verdict {
        if !StoneChart::is_fit(kind, numbers) {
            return Verdict::nothing();
        }
        match Kind::try_from(kind) {
            Ok(Kind::Stone) => Verdict::emitting(numbers[0] as u16),
            Ok(Kind::NoneAndStone) => Verdict::to(1),
            _ => Verdict::nothing(),
        }
    }

    fn draw(&self, sheet: &mut [SheetRecord]) -> Result<usize, Refusal> {
        let mut draft = Draft::new(sheet);
        draw_stones(&mut draft, self.stone)?;
        Ok(draft.len())
    }
}

fn draw_stones(draft: &mut Draft<'_>, stone: Option<RecordNumber>) -> Result<u32, Refusal>
    ensures { DrawsRose draft.old draft.new result (rose_of (listed stone)) }
{
    let none = draft.draw(SheetRecord::of_node(Kind::Nothing.into(), &[], &[]))?;
    let Some(number) = stone else {
        return Ok(none);
    };
    let some = draft.draw(stone_record(number))?;
    draft.draw(SheetRecord::of_node(Kind::NoneAndStone.into(), &[], &[none, some]))
}

fn stone_record(number: RecordNumber) -> SheetRecord
    ensures { result ≡ record_of (record { kind = 1; numbers = pos number.value ∷ []; successors = [] }) }
{
    SheetRecord::of_node(Kind::Stone.into(), &[i32::from(number.value())], &[])
}
