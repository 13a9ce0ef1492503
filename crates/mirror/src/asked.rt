//! What is asked of a sheet.

ghost use Rattle.std.specs.Prelude.{◌≡◌, ◌<◌, ◌≤◌, true, length, take, IfOk, Ok};
ghost use Rattle.calls.specs.Chain.{guard};
ghost use Rattle.calls.specs.Sheets.{is_count};
ghost use Rattle.reader.specs.Reading.{map_ok, onward};
ghost use Rattle.refusal.specs.declared.Refusal.TheVariants.{SheetUnsound};

use refusal::Refusal;
use search::chart::Chart;
use search::sheet::SheetRecord;
use sheets::reading::is_count;

/// A question within bounds, asked of the counted records of a sheet.
#[derive(Drop)]
pub(crate) struct Asked<'a, C: Chart> {
    pub(crate) counted: &'a [SheetRecord],
    pub(crate) question: &'a C::Question,
    ghost some: { 0 < length counted.now },
    ghost few: { length counted.now ≤ 8192 },
    ghost bounds: { C.Chart.judging.is_within_bounds question.now ≡ true },
}

impl<'a, C: Chart> Asked<'a, C> {
    /// Refused where the count is not sound.
    pub(crate) fn of_sheet(
        sheet: &'a [SheetRecord],
        count: usize,
        question: &'a C::Question,
    ) -> Result<Asked<'a, C>, Refusal>
        requires { C.Chart.judging.is_within_bounds question.now ≡ true }
        ensures counted { map_ok (λ asked. asked.counted.now) result ≡ onward (guard (is_count sheet.now count) SheetUnsound) (λ _. Ok (take count sheet.now)) }
        ensures question { IfOk result (λ asked. asked.question.now ≡ question.now) }
    {
        if !is_count(sheet, count) {
            return Err(Refusal::SheetUnsound);
        }
        Ok(Asked {
            counted: &sheet[..count],
            question,
        })
    }
}
