//! The number of a zone. 0 is open ground.
ghost use Rattle.std.specs.Prelude.{◌≡◌, pos};
ghost use Rattle.std.specs.Option.{option_map};
ghost use Rattle.records.specs.Range.{is_zone, kept_by};

pub type Zone = u16;

pub fn zone_number(value: i64) -> Option<Zone>
    ensures { option_map pos result ≡ kept_by is_zone value }
{
    Zone::try_from(value).ok()
}
