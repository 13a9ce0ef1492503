//! What every chart kind shows. Its meaning is the records that it holds.
ghost use Rattle.std.specs.Prelude.{◌≡◌, List, [], ℤ};
ghost use Rattle.records.specs.Held.{put_in, taken_out, remove_refusal};
ghost use Rattle.records.specs.Outcome.{answered, unless_refused};
ghost use Rattle.search.specs.Drawing.{Drawing};
ghost use Rattle.search.specs.Judging.{Judging, judged};
ghost use Rattle.search.specs.Laws.{Laws};
ghost use Rattle.search.specs.Sheet.{drawn_sheet, drawn_count};
ghost use Rattle.search.specs.Verdict.{judgement_of};

use crate::sheet::SheetRecord;
use crate::verdict::Verdict;
use node::Shape;
use refusal::Refusal;

pub trait Chart: Sized {
    type Record;

    type Question;

    /// What judging needs: no record, no register.
    ghost judging: { Judging Self.Question };

    /// What drawing needs.
    ghost drawing: { Drawing Self.Record Self.Question };

    /// The records held, in rising number.
    ghost held: { Self → List Self.Record };

    fn new() -> Self
        ensures { held result ≡ [] };

    fn add(&mut self, from: &Self::Record) -> Result<(), Refusal>
        ensures answer { result ≡ answered (drawing.add_refusal (held self.old) from.now) tt }
        ensures after { held self.new ≡ unless_refused (drawing.add_refusal (held self.old) from.now) (put_in drawing.number_of from.now (held self.old)) (held self.old) };

    fn remove(&mut self, number: i64) -> Result<(), Refusal>
        ensures answer { result ≡ answered (remove_refusal drawing.number_of (held self.old) number) tt }
        ensures after { held self.new ≡ unless_refused (remove_refusal drawing.number_of (held self.old) number) (taken_out drawing.number_of number (held self.old)) (held self.old) };

    fn is_within_bounds(question: &Self::Question) -> bool
        ensures { result ≡ judging.is_within_bounds question.now };

    /// The shape of a kind; none where the kind is not known. A kind stays a number here, since a sheet or a proof may hold any.
    fn shape_of(kind: u32) -> Option<Shape>
        ensures { result ≡ judging.shape_of kind };

    fn is_fit(kind: u32, numbers: &[i32]) -> bool
        ensures { result ≡ judging.is_fit kind numbers.now };

    /// Nothing for a question out of bounds or unfit numbers.
    fn judge(question: &Self::Question, kind: u32, numbers: &[i32]) -> Verdict
        ensures { judgement_of result ≡ judged judging question.now kind numbers.now };

    /// Draws the figure of the held records into a sheet, and answers how many nodes it has.
    fn draw(&self, sheet: &mut [SheetRecord]) -> Result<usize, Refusal>
        ensures answer { result ≡ drawn_count (drawing.figure (held self.now)) sheet.old }
        ensures after { sheet.new ≡ drawn_sheet (drawing.figure (held self.now)) sheet.old };

    ghost lawful: { Laws judging drawing };
}
