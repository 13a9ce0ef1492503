// A site from its record and back, and whether a rectangle has it inside.
ghost use Rattle.std.specs.Prelude.{◌≡◌, pos, if◌then◌else◌, Some, None};
ghost use Rattle.std.specs.Option.{option_map};
ghost use Rattle.sites.specs.Site.{is_site, raw_of};
ghost use Rattle.sites.specs.Question.{is_inside};

use super::Site;
use records::coordinate::Coordinate;
use records::range::is_within;
use records::raw::{Rectangle, SiteRecord};
use records::record_number::RecordNumber;

impl Site {
    pub fn new(from: SiteRecord) -> Option<Site>
        ensures { option_map raw_of result ≡ (if is_site from then Some from else None) }
    {
        let number = RecordNumber::new(from.number)?;
        let x = Coordinate::new(from.x)?;
        let y = Coordinate::new(from.y)?;
        Some(Site { number, x, y })
    }

    /// What fills the places of a register that no site is in.
    pub fn filler() -> Site
        ensures { raw_of result ≡ record { number = pos 1; x = pos 0; y = pos 0 } }
    {
        Site {
            number: RecordNumber::first(),
            x: Coordinate::zero(),
            y: Coordinate::zero(),
        }
    }

    pub fn raw(&self) -> SiteRecord
        ensures { result ≡ raw_of self.now }
    {
        SiteRecord {
            number: i64::from(self.number.value()),
            x: i64::from(self.x.value()),
            y: i64::from(self.y.value()),
        }
    }

    pub fn x(&self) -> i32
        ensures { result ≡ (raw_of self.now).x }
    {
        self.x.value()
    }

    pub fn y(&self) -> i32
        ensures { result ≡ (raw_of self.now).y }
    {
        self.y.value()
    }

    pub fn is_inside(&self, question: &Rectangle) -> bool
        ensures { result ≡ is_inside question.now (raw_of self.now) }
    {
        let site = self.raw();
        is_within(question.west, question.east, site.x)
            && is_within(question.south, question.north, site.y)
    }
}
