//! The sites in a rectangle, by looking at every site in turn.
ghost use Rattle.std.specs.Prelude.{◌≡◌};
ghost use Rattle.records.specs.Outcome.{answered};
ghost use Rattle.sites.specs.Question.{question_refusal, sites_in};
ghost use Rattle.sites.specs.Register.{held, numbers_in};

use super::SiteRegister;
use crate::list::SiteList;
use crate::question::is_within_bounds;
use records::raw::Rectangle;
use refusal::Refusal;

impl SiteRegister {
    pub fn sites_in(&self, question: &Rectangle) -> Result<SiteList, Refusal>
        ensures { numbers_in result ≡ answered (question_refusal question.now) (sites_in (held self.now) question.now) }
    {
        if !is_within_bounds(question) {
            return Err(Refusal::QuestionOutOfBounds);
        }
        let mut inside = SiteList::new(0);
        for site in self.sites() {
            if site.is_inside(question) {
                match inside.insert(site.record_number()) {
                    Ok(()) => {}
                    Err(_) => unreachable(),
                }
            }
        }
        Ok(inside)
    }
}
