// What is told of a division.
ghost use Rattle.std.specs.Prelude.{◌≡◌};
ghost use Rattle.audit.specs.Priced.{counted};

use division::mark::Mark;

// Stretch (start, end) holds the readings start + 1 to end.
#[derive(Clone, Copy)]
pub struct PricedStretch {
    pub start: u16,
    pub end: u16,
    pub loss: u64,
}

// A mark, with how many boundaries stand in its span.
#[derive(Clone, Copy)]
pub struct CountedMark {
    pub mark: Mark,
    pub boundaries: usize,
    pub obeyed: bool,
}

impl CountedMark {
    // The mark, with what the boundaries `gaps` make of it.
    pub(crate) fn of(mark: Mark, gaps: &[u16]) -> CountedMark
        ensures { result ≡ counted gaps.now mark }
    {
        CountedMark {
            mark,
            boundaries: mark.count_in(gaps),
            obeyed: mark.is_obeyed(gaps),
        }
    }
}

#[derive(Drop)]
pub struct Report {
    pub stretches: Vec<PricedStretch>,
    pub marks: Vec<CountedMark>,
    pub long_enough: bool,
    pub loss: u64,
    pub total: u64,
    pub allowed: bool,
}
