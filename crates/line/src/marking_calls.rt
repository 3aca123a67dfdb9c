// The calls of a line that takes marks. Each is refused for the first of its causes that applies, and then changes nothing.
ghost use Rattle.std.specs.Prelude.{◌≡◌, [], length, MatchResult};
ghost use Rattle.fault.specs.Refusal.{unless};
ghost use Rattle.list.specs.Entries.{places};
ghost use Rattle.marks.specs.Marks.{laid, lifted, lay_refusal, lift_refusal};
ghost use Rattle.marks.specs.Table.{marks_of};
ghost use Rattle.path.specs.Outcome.{path_refusal, PathWritten};
ghost use Rattle.cuts.specs.Outcome.{Cut as Cut-made};
ghost use Rattle.cuts.specs.Criterion.{sought};
ghost use Rattle.line.specs.Calls.{open_refusal, fresh, shortest_refusal, with_shortest, cut_refusal, cut_winner, cut_total, cut_outcome, cut_line};

use crate::{Criterion, Cut, Marking};
use constraints::Constraints;
use cuts::cuts::cut;
use division::mark::Mark;
use envelope::Step;
use fault::Fault;
use list::List;
use loss::check::check_line;
use loss::model::Loss;
use marks::lent::{lay_in, lift_in};
use marks::table::MarkTable;
use path::path::path;

// Each takes the line by `&mut`: it is a call of the line, though some change only what is lent.
impl Marking {
    // A fresh line over the loss: all its readings, no marks, and stretches of one reading or more.
    pub fn open<L: Loss>(loss: &L, marks: &mut MarkTable) -> Result<Marking, Fault>
        ensures answer { result ≡ unless (open_refusal (L.table loss.now)) (fresh (L.table loss.now)) }
        ensures marks { MatchResult result (λ _. marks_of marks.new ≡ []) (λ _. marks.new ≡ marks.old) }
    {
        let n = loss.length();
        check_line(loss, n)?;
        *marks = MarkTable::new();
        Ok(Marking { n, shortest: 1 })
    }

    // How many readings the line has.
    pub fn readings(&self) -> u16
        ensures { result ≡ self.now.n }
    {
        self.n
    }

    // The shortest stretch that stands.
    pub fn shortest(&self) -> u16
        ensures { result ≡ self.now.shortest }
    {
        self.shortest
    }

    // What the line's divisions are held to, with the marks that are lent.
    fn constraints<'a>(&self, marks: &'a MarkTable) -> Constraints<'a>
        ensures n { result.n ≡ self.now.n }
        ensures shortest { result.shortest ≡ self.now.shortest }
        ensures marks { result.marks.now ≡ marks.now }
    {
        Constraints {
            n: self.n,
            shortest: self.shortest,
            marks,
        }
    }

    // Lays a mark, and says how many then stand.
    pub fn mark(&mut self, marks: &mut MarkTable, mark: Mark) -> Result<usize, Fault>
        ensures answer { result ≡ unless (lay_refusal self.old.n mark (marks_of marks.old)) (length (laid mark (marks_of marks.old))) }
        ensures marks { MatchResult result (λ _. marks_of marks.new ≡ laid mark (marks_of marks.old)) (λ _. marks.new ≡ marks.old) }
        ensures same { self.new ≡ self.old }
    {
        lay_in(marks, self.n, mark)
    }

    // Lifts the mark that begins at `first`, and says how many then stand.
    pub fn unmark(&mut self, marks: &mut MarkTable, first: u16) -> Result<usize, Fault>
        ensures answer { result ≡ unless (lift_refusal first (marks_of marks.old)) (length (lifted first (marks_of marks.old))) }
        ensures marks { MatchResult result (λ _. marks_of marks.new ≡ lifted first (marks_of marks.old)) (λ _. marks.new ≡ marks.old) }
        ensures same { self.new ≡ self.old }
    {
        lift_in(marks, first)
    }

    // Sets the shortest stretch.
    pub fn set_shortest(&mut self, m: u16) -> Result<(), Fault>
        ensures answer { result ≡ unless (shortest_refusal self.old.n m) tt }
        ensures after { self.new ≡ with_shortest m self.old }
    {
        if m < 1 || m > self.n {
            return Err(Fault::BadShortest);
        }
        self.shortest = m;
        Ok(())
    }

    // For every penalty, the count and the loss of the division that a cut there would hold: steps into the list.
    pub fn path<L: Loss>(
        &mut self,
        loss: &L,
        marks: &MarkTable,
        numbers: &mut [u64],
        steps: &mut List<Step>,
    ) -> Result<(), Fault>
        ensures path { PathWritten
            (path_refusal (L.table loss.now) self.old.n (length numbers.old) (length (places steps.old)))
            (L.table loss.now).loss (marks_of marks.now) self.old.shortest self.old.n
            result steps.old steps.new numbers.old numbers.new }
        ensures same { self.new ≡ self.old }
        ensures lender { steps.new.items.ghost_name ≡ steps.old.items.ghost_name }
        ensures room { length (places steps.new) ≡ length (places steps.old) }
    {
        path(loss, &self.constraints(marks), numbers, steps)
    }

    // Cuts the line: the winning division into the list of boundaries. Refused, the line comes back with the fault.
    pub fn cut<L: Loss>(
        self,
        loss: &L,
        marks: &MarkTable,
        criterion: Criterion,
        numbers: &mut [u64],
        trace: &mut [u16],
        boundaries: &mut List<u16>,
    ) -> Result<Cut, (Marking, Fault)>
        ensures answer { result ≡ cut_line self (cut_outcome (sought criterion) (L.table loss.now) (marks_of marks.now) self (length numbers.old) (length trace.old) (length (places boundaries.old))) }
        ensures cut { Cut-made
            (cut_refusal (sought criterion) (L.table loss.now) self (length numbers.old) (length trace.old) (length (places boundaries.old)))
            (cut_winner (sought criterion) (L.table loss.now) (marks_of marks.now) self)
            (cut_total (sought criterion) (L.table loss.now) self)
            (cut_outcome (sought criterion) (L.table loss.now) (marks_of marks.now) self (length numbers.old) (length trace.old) (length (places boundaries.old)))
            boundaries.old boundaries.new numbers.old numbers.new trace.old trace.new }
        ensures lender { boundaries.new.items.ghost_name ≡ boundaries.old.items.ghost_name }
    {
        let constraints = self.constraints(marks);
        match cut(loss, &constraints, criterion, numbers, trace, boundaries) {
            Ok(total) => {
                let Marking { n, shortest } = self;
                Ok(Cut { n, shortest, total })
            }
            Err(fault) => Err((self, fault)),
        }
    }
}
