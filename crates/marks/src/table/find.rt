// What a table is asked before a mark is laid or lifted.
ghost use Rattle.std.specs.Prelude.{◌≡◌, ◌==◌, nat_lt, position};
ghost use Rattle.fault.specs.Refusal.{RefusedFor};
ghost use Rattle.marks.specs.Marks.{well_formed, shares_gap, shares_any, lay_refusal};
ghost use Rattle.marks.specs.Table.{marks_of};

use crate::table::MarkTable;
use division::mark::Mark;
use fault::Fault;

// Does the mark lie on a line of `n` readings?
fn lies_on(n: u16, mark: Mark) -> bool
    ensures { result ≡ well_formed n mark }
{
    mark.first >= 1 && mark.first < mark.last && mark.last <= n && mark.boundaries <= 1
}

// Is a gap covered by both marks? Marks that meet at a reading share none.
fn overlap(mark: Mark, other: Mark) -> bool
    ensures { result ≡ shares_gap mark other }
{
    mark.first < other.last && other.first < mark.last
}

// Does the mark share a gap with one of the marks?
fn shares(marks: &[Mark], mark: Mark) -> bool
    ensures { result ≡ shares_any mark marks.now }
{
    marks.iter().any(|other| overlap(mark, *other))
}

// The place of the first mark that begins after the mark.
pub(crate) fn first_after(marks: &[Mark], mark: Mark) -> Option<usize>
    ensures { result ≡ position (λ x. nat_lt mark.first x.first) marks.now }
{
    marks.iter().position(|other| mark.first < other.first)
}

// The place of the mark that begins at `first`.
pub(crate) fn beginning_at(marks: &[Mark], first: u16) -> Option<usize>
    ensures { result ≡ position (λ x. x.first == first) marks.now }
{
    marks.iter().position(|mark| mark.first == first)
}

impl MarkTable {
    // Can the mark be laid?
    pub(crate) fn check_lay(&self, n: u16, mark: Mark) -> Result<(), Fault>
        ensures { RefusedFor (lay_refusal n mark (marks_of self.now)) result }
    {
        if !lies_on(n, mark) {
            return Err(Fault::BadMark);
        }
        if shares(self.as_slice(), mark) {
            return Err(Fault::SharedGap);
        }
        if self.len >= 64 {
            return Err(Fault::TooManyMarks);
        }
        Ok(())
    }
}
