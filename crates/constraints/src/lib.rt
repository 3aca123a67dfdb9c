// Which stretches a line may be divided into, and the starts that can precede an end: always one range.
#![tactic(auto)]

ghost use Rattle.std.specs.Prelude.{ℕ, ◌≤◌, ◌↔◌};
ghost use Rattle.division.specs.Stretches.{Permits};
ghost use Rattle.constraints.specs.Ranges.{permitted, InRange};

use division::mark::Mark;
use marks::table::MarkTable;

// The length of the line, its shortest stretch and its marks.
#[derive(Clone, Copy)]
pub struct Constraints<'a> {
    pub n: u16,
    pub shortest: u16,
    pub marks: &'a MarkTable,
}

// The starts from `first` to `past` - 1.
#[derive(Clone, Copy)]
pub struct StartRange {
    pub first: u16,
    pub past: u16,
}

const NO_START: StartRange = StartRange { first: 0, past: 0 };

// The starts of the range from which the mark lets a stretch reach `end`, on a line of n readings.
fn narrow(range: StartRange, mark: Mark, n: u16, end: u16) -> StartRange
    requires { range.past ≤ end }
    ensures exact { (a : ℕ) → InRange result a ↔ (InRange range a × Permits n a end mark) }
    ensures within { result.past ≤ range.past }
{
    let StartRange { first, past } = range;
    if mark.boundaries == 0 {
        if end < n && mark.first <= end && end < mark.last {
            NO_START
        } else {
            range
        }
    } else if mark.last <= end || end >= n {
        StartRange {
            first: first.max(mark.first),
            past,
        }
    } else {
        StartRange {
            first,
            past: past.min(mark.first),
        }
    }
}

impl Constraints<'_> {
    // The starts that can precede `end`.
    pub fn starts_before(&self, end: u16) -> StartRange
        ensures exact { (a : ℕ) → InRange result a ↔ permitted self.now a end }
        ensures within { (result.first ≤ result.past) × (result.past ≤ end) }
    {
        let shortest = self.shortest.max(1);
        if shortest > end {
            return NO_START;
        }
        let mut range = StartRange {
            first: 0,
            past: end - shortest + 1,
        };
        for mark in self.marks.as_slice() {
            range = narrow(range, *mark, self.n, end);
        }
        if range.first < range.past {
            range
        } else {
            NO_START
        }
    }
}
