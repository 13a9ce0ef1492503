//! The number of a record. No value of this type is out of range.
ghost use Rattle.std.specs.Prelude.{◌≡◌, ◌<◌, ◌≤◌, pos};
ghost use Rattle.std.specs.Option.{option_map};
ghost use Rattle.records.specs.Range.{is_record_number, kept_by};

#[derive(Clone, Copy, PartialEq, Eq, PartialOrd, Ord)]
pub struct RecordNumber {
    value: u16,
    ghost positive: { 0 < value },
    ghost within: { value ≤ 65535 },
}

impl RecordNumber {
    pub fn new(value: i64) -> Option<RecordNumber>
        ensures { option_map (λ n. pos n.value) result ≡ kept_by is_record_number value }
    {
        let value = u16::try_from(value).ok()?;
        if value < 1 {
            return None;
        }
        Some(RecordNumber { value })
    }

    pub fn first() -> RecordNumber
        ensures { result.value ≡ 1 }
    {
        RecordNumber { value: 1 }
    }

    pub fn value(self) -> u16
        ensures { result ≡ self.value }
    {
        self.value
    }
}
