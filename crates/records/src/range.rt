//! Whether a value lies between two limits, both included.
ghost use Rattle.std.specs.Prelude.{◌≡◌};
ghost use Rattle.records.specs.Range.{within};

pub fn is_within(low: i64, high: i64, value: i64) -> bool
    ensures { result ≡ within low high value }
{
    (low..=high).contains(&value)
}
