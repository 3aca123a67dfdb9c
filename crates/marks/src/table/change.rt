// Making a table, reading it, and the tables with one mark more or less.
ghost use Rattle.std.specs.Prelude.{◌≡◌, ◌≤◌, [], length};
ghost use Rattle.std.specs.List.{slice_get};
ghost use Rattle.fault.specs.Refusal.{unless};
ghost use Rattle.marks.specs.Marks.{laid, lifted, lay_refusal, lift_refusal};
ghost use Rattle.marks.specs.Table.{marks_of, listed};

use crate::table::MarkTable;
use crate::table::find::{beginning_at, first_after};
use crate::table::part::{insert, remove};
use division::mark::Mark;
use fault::Fault;

impl MarkTable {
    // No mark stands.
    pub fn new() -> MarkTable
        ensures { marks_of result ≡ [] }
    {
        MarkTable {
            marks: [Mark {
                first: 0,
                last: 0,
                boundaries: 0,
            }; 64],
            len: 0,
        }
    }

    // How many marks stand: 64 at most.
    pub fn count(&self) -> usize
        ensures value { result ≡ length (marks_of self.now) }
        ensures bound { result ≤ 64 }
    {
        self.len
    }

    // The mark at the place `i`, counted from 0; none past the last.
    pub fn get(&self, i: usize) -> Option<Mark>
        ensures { result ≡ slice_get (marks_of self.now) i }
    {
        self.as_slice().get(i).copied()
    }

    // The marks that stand, first to last.
    pub fn as_slice(&self) -> &[Mark]
        ensures { result.now ≡ marks_of self.now }
    {
        &self.marks[..self.len]
    }

    // The table with the mark laid on a line of `n` readings.
    pub fn lay(self, n: u16, mark: Mark) -> Result<MarkTable, Fault>
        ensures { listed result ≡ unless (lay_refusal n mark (marks_of self)) (laid mark (marks_of self)) }
    {
        self.check_lay(n, mark)?;
        let at = first_after(self.as_slice(), mark).unwrap_or(self.len);
        let mut marks = self.marks;
        insert(&mut marks, self.len, at, mark);
        Ok(MarkTable {
            marks,
            len: self.len + 1,
        })
    }

    // The table without the mark that begins at `first`.
    pub fn lift(self, first: u16) -> Result<MarkTable, Fault>
        ensures { listed result ≡ unless (lift_refusal first (marks_of self)) (lifted first (marks_of self)) }
    {
        let Some(at) = beginning_at(self.as_slice(), first) else {
            return Err(Fault::NoSuchMark);
        };
        let mut marks = self.marks;
        remove(&mut marks, self.len, at);
        Ok(MarkTable {
            marks,
            len: self.len - 1,
        })
    }
}
