// A mark: a span of readings that is known to hold no boundary, or one.
ghost use Rattle.std.specs.Prelude.{◌≡◌};
ghost use Rattle.division.specs.Marks.{covers, boundaries_in, obeys};

// It covers the gaps `first` to `last` - 1, and a division obeys it when exactly `boundaries` of them are boundaries.
#[derive(Clone, Copy, PartialEq, Eq, Debug)]
pub struct Mark {
    pub first: u16,
    pub last: u16,
    pub boundaries: u8,
}

impl Mark {
    // Is the gap one of those that the mark covers?
    pub fn has(self, gap: u16) -> bool
        ensures { result ≡ covers self gap }
    {
        self.first <= gap && gap < self.last
    }

    // How many of the gaps that the mark covers are boundaries.
    pub fn count_in(self, gaps: &[u16]) -> usize
        ensures { result ≡ boundaries_in self gaps.now }
    {
        gaps.iter().filter(|gap| self.has(**gap)).count()
    }

    // Does the division obey the mark?
    pub fn is_obeyed(self, gaps: &[u16]) -> bool
        ensures { result ≡ obeys gaps.now self }
    {
        self.count_in(gaps) == usize::from(self.boundaries)
    }
}
