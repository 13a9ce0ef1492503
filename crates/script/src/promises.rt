//! What holds of every line that is listed.
ghost use Rattle.script.specs.ReadBack.{ListedEdgesReadBack, ListedSitesReadBack};

pub fn listed_records_read_back() -> u8
    ensures edges { ListedEdgesReadBack }
    ensures sites { ListedSitesReadBack }
{
    0
}
