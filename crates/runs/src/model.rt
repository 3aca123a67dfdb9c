// The calls of a line, with what each is lent, and what each answers.
ghost use Rattle.std.specs.Prelude.{◌≡◌};
ghost use Rattle.runs.specs.State.{readings_of, shortest_of};

use division::mark::Mark;
use fault::Fault;
use line::{Criterion, Cut, Marking};

// How many of the numbers and of the trace a call may use; of more than there are it may use all.
#[derive(Clone, Copy)]
pub struct Lent {
    pub numbers: usize,
    pub trace: usize,
}

#[derive(Clone, Copy)]
pub enum Call {
    Mark(Mark),
    Unmark(u16),
    Shortest(u16),
    Path(Lent),
    Cut(Criterion, Lent),
    Reopen,
}

// What a call answers that is carried out.
#[derive(Clone, Copy, PartialEq, Eq, Debug)]
pub enum Answer {
    // so many marks stand now
    Standing(usize),
    // the shortest stretch is this
    Shortest(u16),
    // the steps stand in their list
    Path,
    // the boundaries stand in their list, and the division costs this
    Total(u64),
    Reopened,
}

pub type Reply = Result<Answer, Fault>;

// A line in either state.
#[derive(Drop)]
pub enum Line {
    Marking(Marking),
    Cut(Cut),
}

impl Line {
    // How many readings the line has.
    pub fn readings(&self) -> u16
        ensures { result ≡ readings_of self.now }
    {
        match self {
            Line::Marking(line) => line.readings(),
            Line::Cut(line) => line.readings(),
        }
    }

    // The shortest stretch that stands.
    pub fn shortest(&self) -> u16
        ensures { result ≡ shortest_of self.now }
    {
        match self {
            Line::Marking(line) => line.shortest(),
            Line::Cut(line) => line.shortest(),
        }
    }
}
