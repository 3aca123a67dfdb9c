// The calls of a line that is cut.
ghost use Rattle.std.specs.Prelude.{◌≡◌, length};
ghost use Rattle.list.specs.Entries.{entries};
ghost use Rattle.line.specs.Calls.{numbered, reopened};

use crate::{Cut, Marking};
use list::List;

impl Cut {
    // How many readings the line has.
    pub fn readings(&self) -> u16
        ensures { result ≡ self.now.n }
    {
        self.n
    }

    // The shortest stretch that stands.
    pub fn shortest(&self) -> u16
        ensures { result ≡ self.now.shortest }
    {
        self.shortest
    }

    // What the division costs: its loss, by penalty with the penalty for each boundary.
    pub fn total(&self) -> u64
        ensures { result ≡ self.now.total }
    {
        self.total
    }

    // How many boundaries the division has.
    pub fn count(&self, boundaries: &List<u16>) -> usize
        ensures { result ≡ length (entries boundaries.now) }
    {
        boundaries.len()
    }

    // Boundary number i, counted from 1, if there is one.
    pub fn boundary(&self, boundaries: &List<u16>, i: usize) -> Option<u16>
        ensures { result ≡ numbered (entries boundaries.now) i }
    {
        boundaries.get(i.checked_sub(1)?)
    }

    // Gives the division up; marks and shortest stretch stay.
    pub fn reopen(self) -> Marking
        ensures { result ≡ reopened self }
    {
        let Cut {
            n,
            shortest,
            total: _,
        } = self;
        Marking { n, shortest }
    }
}
