//! The register of sites as a chart.
ghost use Rattle.sites.specs.Register.{held as held_sites};
ghost use Rattle.site_figure.specs.Figure.{site_drawing};
ghost use Rattle.site_figure.specs.Judge.{site_judging};
ghost use Rattle.site_figure.proofs.Lawful.{sites_are_lawful_lem};

use crate::drawing::draw_register;
use crate::judging;
use node::Shape;
use records::raw::{Rectangle, SiteRecord};
use refusal::Refusal;
use search::chart::Chart;
use search::drafting::Draft;
use search::sheet::SheetRecord;
use search::verdict::Verdict;
use sites::question;
use sites::register::SiteRegister;

/// A register of sites, with what every chart kind shows.
#[derive(Clone, Copy)]
pub struct SiteChart {
    pub register: SiteRegister,
}

impl Chart for SiteChart {
    type Record = SiteRecord;

    type Question = Rectangle;

    ghost judging = { site_judging };

    ghost drawing = { site_drawing };

    ghost held = { λ chart. held_sites chart.register };

    ghost lawful = { sites_are_lawful_lem };

    fn new() -> SiteChart {
        SiteChart {
            register: SiteRegister::new(),
        }
    }

    fn add(&mut self, from: &SiteRecord) -> Result<(), Refusal> {
        self.register.add(*from)
    }

    fn remove(&mut self, number: i64) -> Result<(), Refusal> {
        self.register.remove(number)
    }

    fn is_within_bounds(question: &Rectangle) -> bool {
        question::is_within_bounds(question)
    }

    fn shape_of(kind: u32) -> Option<Shape> {
        judging::shape_of(kind)
    }

    fn is_fit(kind: u32, numbers: &[i32]) -> bool {
        judging::is_fit(kind, numbers)
    }

    fn judge(question: &Rectangle, kind: u32, numbers: &[i32]) -> Verdict {
        judging::judge(question, kind, numbers)
    }

    fn draw(&self, sheet: &mut [SheetRecord]) -> Result<usize, Refusal> {
        let mut draft = Draft::new(sheet);
        draw_register(&mut draft, &self.register)?;
        Ok(draft.len())
    }
}
