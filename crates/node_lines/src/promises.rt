//! What holds of the lines of all strings and of all nodes.
ghost use Rattle.node_lines.specs.FigureLines.{RecordsShowTheirNodes};
ghost use Rattle.node_lines.specs.StringLines.{AllStringsHaveLines};

pub fn all_strings_have_lines() -> u8
    ensures { AllStringsHaveLines }
{
    0
}

pub fn records_show_their_nodes() -> u8
    ensures { RecordsShowTheirNodes }
{
    0
}
