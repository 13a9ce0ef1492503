//! What is true of the figure of every list of edges that calls of a register can reach.
ghost use Rattle.zone_figure.specs.Promises.{ZoneTreesAreFit, ZoneTreesAreLow, VisitsAnswer, WalksAnswer, WalksWaitAlone, Halved, ZoneFiguresAreSmall, SheetsSuffice, ZoneChartsAreLawful};
ghost use Rattle.zone_figure.specs.Worked.{FigureOfThreeEdges};

/// Every node is of a known kind, of its shape and fit, and no more than 16 stand one below the other.
pub fn zone_trees_are_sound() -> u8
    ensures halved { Halved }
    ensures fit { ZoneTreesAreFit }
    ensures low { ZoneTreesAreLow }
    ensures worked { FigureOfThreeEdges }
{
    0
}

/// A walk emits the zone of the point by definition, reads at most 16 strings and 1,172 bytes, and has at most one node waiting.
pub fn zone_walks_answer() -> u8
    ensures visits { VisitsAnswer }
    ensures walks { WalksAnswer }
    ensures waiting { WalksWaitAlone }
{
    0
}

/// A figure has at most 4,289 nodes, so that a sheet with as many records is never refused.
pub fn zone_figures_are_small() -> u8
    ensures small { ZoneFiguresAreSmall }
    ensures room { SheetsSuffice }
{
    0
}

/// All that every chart kind shows.
pub fn zone_charts_are_lawful() -> u8
    ensures { ZoneChartsAreLawful }
{
    0
}
