//! What judging a node gives.
ghost use Rattle.std.specs.Prelude.{◌≡◌, [], ◌∷◌, Some, None};
ghost use Rattle.search.specs.Judging.{nothing as no_judgement};
ghost use Rattle.search.specs.Verdict.{judgement_of};

/// The ways named: which of the node's successors to go to, counted from 0, the first named first.
#[derive(Clone, Copy)]
pub enum Ways {
    Nowhere,
    To(u8),
    ToBoth(u8, u8),
}

#[derive(Clone, Copy)]
pub struct Verdict {
    pub ways: Ways,
    pub emits: Option<u16>,
}

impl Verdict {
    pub fn nothing() -> Verdict
        ensures { judgement_of result ≡ no_judgement }
    {
        Verdict {
            ways: Ways::Nowhere,
            emits: None,
        }
    }

    pub fn to(way: u8) -> Verdict
        ensures { judgement_of result ≡ record { ways = way ∷ []; emits = None } }
    {
        Verdict {
            ways: Ways::To(way),
            ..Verdict::nothing()
        }
    }

    pub fn to_both(first: u8, second: u8) -> Verdict
        ensures { judgement_of result ≡ record { ways = first ∷ second ∷ []; emits = None } }
    {
        Verdict {
            ways: Ways::ToBoth(first, second),
            ..Verdict::nothing()
        }
    }

    pub fn emitting(number: u16) -> Verdict
        ensures { judgement_of result ≡ record { ways = []; emits = Some number } }
    {
        Verdict {
            emits: Some(number),
            ..Verdict::nothing()
        }
    }
}
