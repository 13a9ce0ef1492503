//! What is true of the figure of every list of sites that a register can hold.
ghost use Rattle.site_figure.specs.Promises.{ThreeSitesMakeSevenNodes, TwoRectanglesAreVisited, SitesAreJudgedWell, TreesHalveTheirSites, FiguresAreFit, FiguresHaveFewLevels, FewWait, VisitsAreShort, VisitsTellTheSitesInside, RectanglesAreAnswered, SitesAreLawful, FiguresHaveFewNodes, FiguresHaveRoom};

/// A worked figure, and two walks of it.
pub fn three_sites_make_seven_nodes() -> u8
    ensures figure { ThreeSitesMakeSevenNodes }
    ensures visits { TwoRectanglesAreVisited }
{
    0
}

/// At most two ways are named, each in the shape, and one small number is emitted.
pub fn sites_are_judged_well() -> u8
    ensures { SitesAreJudgedWell }
{
    0
}

/// Halving as the rule tells it.
pub fn trees_halve_their_sites() -> u8
    ensures { TreesHalveTheirSites }
{
    0
}

/// Walking its own figure refuses no node.
pub fn figures_are_fit() -> u8
    ensures { FiguresAreFit }
{
    0
}

/// How deep a walk goes, and how many wait.
pub fn few_wait() -> u8
    ensures levels { FiguresHaveFewLevels }
    ensures waiting { FewWait }
{
    0
}

pub fn visits_are_short() -> u8
    ensures { VisitsAreShort }
{
    0
}

/// Walking answers every rectangle.
pub fn visits_tell_the_sites_inside() -> u8
    ensures { VisitsTellTheSitesInside }
{
    0
}

/// With the real bounds: how many wait, and how many bytes a walk takes.
pub fn rectangles_are_answered() -> u8
    ensures { RectanglesAreAnswered }
{
    0
}

/// The site chart is a chart kind.
pub fn sites_are_lawful() -> u8
    ensures { SitesAreLawful }
{
    0
}

/// How large a sheet a figure can need.
pub fn figures_have_few_nodes() -> u8
    ensures nodes { FiguresHaveFewNodes }
    ensures room { FiguresHaveRoom }
{
    0
}
