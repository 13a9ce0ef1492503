//! What a chart kind shows besides, for what it holds to be published.
ghost use Rattle.search.specs.Figure.{IsFigure};

use search::chart::Chart;

/// The figure of whatever a chart of this kind holds has sound nodes, with the root last.
pub trait DrawnChart: Chart {
    /// Shows that of a chart, and does nothing else.
    fn show_drawn(&self)
        ensures { IsFigure Self.judging (Self.drawing.figure (Self.held self.now)) };
}
