// The line that is worked on. Readings may come at any time; marks and the shortest stretch are held to the readings so far.
ghost use Rattle.std.specs.Prelude.{◌≡◌, [], length, IfOk, MatchResult};
ghost use Rattle.fault.specs.Refusal.{FailedFor, unless};
ghost use Rattle.leaves.specs.Taking.{gathered, after_all};
ghost use Rattle.marks.specs.Marks.{laid, lifted, lay_refusal, lift_refusal};
ghost use Rattle.marks.specs.Table.{marks_of};
ghost use Rattle.list.specs.Entries.{places};
ghost use Rattle.division.specs.Winner.{total as total_of};
ghost use Rattle.path.specs.Outcome.{path_refusal, PathWritten};
ghost use Rattle.cuts.specs.Outcome.{Cut};
ghost use Rattle.cuts.specs.Criterion.{sought, refusal_of};
ghost use Rattle.survey.specs.Best.{best_division};
ghost use Rattle.audit.specs.Priced.{price_refusal, Told};
ghost use Rattle.survey.specs.Held.{table_of_held, readings_of, lowest_of, span_of, kind_of};
ghost use Rattle.survey.specs.Calls.{counted, shortest_refusal};

use crate::held::Held;
use audit::price::price;
use audit::report::Report;
use constraints::Constraints;
use cuts::criterion::Criterion;
use cuts::cuts::cut;
use division::mark::Mark;
use envelope::Step;
use fault::{Failure, Fault};
use leaves::kind::LossKind;
use list::List;
use loss::model::Loss;
use marks::lent::{lay_in, lift_in};
use marks::table::MarkTable;
use path::path::path;
use std::alloc::Global;

#[derive(Drop)]
pub struct Survey {
    held: Held,
    marks: MarkTable,
    shortest: u16,
}

impl Survey {
    // No readings, no marks, and a shortest stretch of one reading.
    pub fn new(kind: LossKind) -> Survey
        ensures kind { kind_of result.held ≡ kind }
        ensures readings { readings_of result.held ≡ [] }
        ensures marks { marks_of result.marks ≡ [] }
        ensures shortest { result.shortest ≡ 1 }
    {
        Survey {
            held: Held::new(kind),
            marks: MarkTable::new(),
            shortest: 1,
        }
    }

    // Takes the readings, all of them or none, and says how many are then held.
    pub fn gather(&mut self, xs: &[i32]) -> Result<u16, Fault>
        ensures answer { result ≡ counted (gathered (lowest_of self.old.held) (span_of self.old.held) (readings_of self.old.held) xs.now) (table_of_held self.new.held).length }
        ensures readings { readings_of self.new.held ≡ after_all (lowest_of self.old.held) (span_of self.old.held) (readings_of self.old.held) xs.now }
        ensures kind { kind_of self.new.held ≡ kind_of self.old.held }
        ensures marks { self.new.marks ≡ self.old.marks }
        ensures shortest { self.new.shortest ≡ self.old.shortest }
    {
        self.held.gather(xs)?;
        Ok(self.held.length())
    }

    // What the line's divisions are held to.
    fn constraints(&self) -> Constraints<'_>
        ensures n { result.n ≡ (table_of_held self.now.held).length }
        ensures shortest { result.shortest ≡ self.now.shortest }
        ensures marks { result.marks.now ≡ self.now.marks }
    {
        Constraints {
            n: self.held.length(),
            shortest: self.shortest,
            marks: &self.marks,
        }
    }

    // Lays a mark, and says how many then stand.
    pub fn lay(&mut self, mark: Mark) -> Result<usize, Fault>
        ensures answer { result ≡ unless (lay_refusal (table_of_held self.old.held).length mark (marks_of self.old.marks)) (length (laid mark (marks_of self.old.marks))) }
        ensures marks { MatchResult result (λ _. marks_of self.new.marks ≡ laid mark (marks_of self.old.marks)) (λ _. self.new.marks ≡ self.old.marks) }
        ensures rest { (self.new.held ≡ self.old.held) × (self.new.shortest ≡ self.old.shortest) }
    {
        let n = self.held.length();
        lay_in(&mut self.marks, n, mark)
    }

    // Lifts the mark that begins at `first`, and says how many then stand.
    pub fn lift(&mut self, first: u16) -> Result<usize, Fault>
        ensures answer { result ≡ unless (lift_refusal first (marks_of self.old.marks)) (length (lifted first (marks_of self.old.marks))) }
        ensures marks { MatchResult result (λ _. marks_of self.new.marks ≡ lifted first (marks_of self.old.marks)) (λ _. self.new.marks ≡ self.old.marks) }
        ensures rest { (self.new.held ≡ self.old.held) × (self.new.shortest ≡ self.old.shortest) }
    {
        lift_in(&mut self.marks, first)
    }

    // Sets the shortest stretch.
    pub fn set_shortest(&mut self, m: u16) -> Result<(), Fault>
        ensures answer { result ≡ unless (shortest_refusal (table_of_held self.old.held).length m) tt }
        ensures shortest { MatchResult result (λ _. self.new.shortest ≡ m) (λ _. self.new.shortest ≡ self.old.shortest) }
        ensures rest { (self.new.held ≡ self.old.held) × (self.new.marks ≡ self.old.marks) }
    {
        if m < 1 || m > self.held.length() {
            return Err(Fault::BadShortest);
        }
        self.shortest = m;
        Ok(())
    }

    // The shortest stretch that stands.
    pub fn shortest(&self) -> u16
        ensures { result ≡ self.now.shortest }
    {
        self.shortest
    }

    // The cheapest allowed division at a penalty for each boundary, or with so many boundaries: its boundaries into the list, and its total.
    pub fn best(
        &self,
        criterion: Criterion,
        numbers: &mut [u64],
        trace: &mut [u16],
        boundaries: &mut List<u16>,
    ) -> Result<u64, Fault>
        ensures cut { Cut
            (refusal_of (sought criterion) (table_of_held self.now.held) (table_of_held self.now.held).length (length numbers.old) (length trace.old) (length (places boundaries.old)))
            (best_division (sought criterion) self.now)
            (total_of (sought criterion) (table_of_held self.now.held).loss (table_of_held self.now.held).length)
            result boundaries.old boundaries.new numbers.old numbers.new trace.old trace.new }
        ensures lender { boundaries.new.items.ghost_name ≡ boundaries.old.items.ghost_name }
    {
        let constraints = self.constraints();
        cut(
            &self.held,
            &constraints,
            criterion,
            numbers,
            trace,
            boundaries,
        )
    }

    // For every penalty, how many boundaries are best, and their loss: steps into the list.
    pub fn path(&self, numbers: &mut [u64], steps: &mut List<Step>) -> Result<(), Fault>
        ensures path { PathWritten
            (path_refusal (table_of_held self.now.held) (table_of_held self.now.held).length (length numbers.old) (length (places steps.old)))
            (table_of_held self.now.held).loss (marks_of self.now.marks) self.now.shortest (table_of_held self.now.held).length
            result steps.old steps.new numbers.old numbers.new }
        ensures lender { steps.new.items.ghost_name ≡ steps.old.items.ghost_name }
    {
        path(&self.held, &self.constraints(), numbers, steps)
    }

    // All that is told of a division of the readings.
    pub fn price(&self, heap: Global, penalty: u64, gaps: &[u16]) -> Result<Report, Failure>
        ensures refusal { FailedFor (price_refusal (table_of_held self.now.held) penalty gaps.now) result }
        ensures told { IfOk result (Told (table_of_held self.now.held) (marks_of self.now.marks) self.now.shortest penalty gaps.now) }
    {
        price(
            heap,
            &self.held,
            self.marks.as_slice(),
            self.shortest,
            penalty,
            gaps,
        )
    }
}
