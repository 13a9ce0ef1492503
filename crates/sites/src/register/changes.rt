//! Sites put in and taken out. A refusal changes nothing.
ghost use Rattle.std.specs.Prelude.{◌≡◌};
ghost use Rattle.records.specs.Held.{put_in, taken_out, remove_refusal};
ghost use Rattle.records.specs.Outcome.{answered, unless_refused};
ghost use Rattle.sites.specs.Site.{add_refusal, number_of};
ghost use Rattle.sites.specs.Register.{held};

use super::SiteRegister;
use crate::site::Site;
use records::numbered::{place_of, take_out_of_run};
use records::raw::SiteRecord;
use refusal::Refusal;

impl SiteRegister {
    pub fn add(&mut self, from: SiteRecord) -> Result<(), Refusal>
        ensures answer { result ≡ answered (add_refusal (held self.old) from) tt }
        ensures after { held self.new ≡ unless_refused (add_refusal (held self.old) from) (put_in number_of from (held self.old)) (held self.old) }
    {
        let Some(site) = Site::new(from) else {
            return Err(Refusal::FieldOutOfRange);
        };
        if place_of(self.sites.as_slice(), from.number).is_some() {
            return Err(Refusal::NumberHeld);
        }
        self.sites.insert(site).map_err(|_| Refusal::RegisterFull)
    }

    pub fn remove(&mut self, number: i64) -> Result<(), Refusal>
        ensures answer { result ≡ answered (remove_refusal number_of (held self.old) number) tt }
        ensures after { held self.new ≡ unless_refused (remove_refusal number_of (held self.old) number) (taken_out number_of number (held self.old)) (held self.old) }
    {
        take_out_of_run(&mut self.sites, number)
    }
}
