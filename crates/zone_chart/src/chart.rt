//! The register of edges as a chart.
ghost use Rattle.zones.specs.Register.{held as held_edges};
ghost use Rattle.zone_figure.specs.Judge.{zone_judging};
ghost use Rattle.zone_figure.specs.Figure.{zone_drawing};
ghost use Rattle.zone_figure.proofs.Figures.{zone_charts_are_lawful_lem};

use crate::drawing::draw_zones;
use crate::fitness::{known_shape, numbers_fit};
use crate::judging::{judge_node, point_is_within_bounds};
use node::Shape;
use records::raw::{EdgeRecord, Point};
use refusal::Refusal;
use search::chart::Chart;
use search::drafting::Draft;
use search::sheet::SheetRecord;
use search::verdict::Verdict;
use zones::register::ZoneRegister;

/// A register of edges, with what every chart kind shows.
#[derive(Clone, Copy)]
pub struct ZoneChart {
    pub register: ZoneRegister,
}

impl Chart for ZoneChart {
    type Record = EdgeRecord;

    type Question = Point;

    ghost judging = { zone_judging };

    ghost drawing = { zone_drawing };

    ghost held = { λ chart. held_edges chart.register };

    ghost lawful = { zone_charts_are_lawful_lem };

    fn new() -> ZoneChart {
        ZoneChart {
            register: ZoneRegister::new(),
        }
    }

    fn add(&mut self, from: &EdgeRecord) -> Result<(), Refusal> {
        self.register.add(*from)
    }

    fn remove(&mut self, number: i64) -> Result<(), Refusal> {
        self.register.remove(number)
    }

    fn is_within_bounds(question: &Point) -> bool {
        point_is_within_bounds(question)
    }

    fn shape_of(kind: u32) -> Option<Shape> {
        known_shape(kind)
    }

    fn is_fit(kind: u32, numbers: &[i32]) -> bool {
        numbers_fit(kind, numbers)
    }

    fn judge(question: &Point, kind: u32, numbers: &[i32]) -> Verdict {
        judge_node(question, kind, numbers)
    }

    fn draw(&self, sheet: &mut [SheetRecord]) -> Result<usize, Refusal> {
        let mut draft = Draft::new(sheet);
        draw_zones(&mut draft, &self.register)?;
        Ok(draft.len())
    }
}
