// One call of a line in either state. Marks, lists and buffers are lent one by one: a struct of them would hold references, and each clause
// would have to say besides that it still holds the same ones.
ghost use Rattle.std.specs.Prelude.{◌≡◌, min, length};
ghost use Rattle.list.specs.Entries.{places};
ghost use Rattle.marks.specs.Table.{marks_of};
ghost use Rattle.path.specs.Outcome.{path_refusal, PathWritten};
ghost use Rattle.cuts.specs.Outcome.{Cut as Cut-made};
ghost use Rattle.cuts.specs.Criterion.{sought};
ghost use Rattle.line.specs.Calls.{cut_refusal, cut_winner, cut_total, cut_outcome, cut_line};
ghost use Rattle.runs.specs.State.{room, state, answered, Performed, PastKept, Searched};
ghost use Rattle.runs.specs.History.{event};
ghost use Rattle.runs.specs.Kept.{Keeps};
ghost use Rattle.runs.specs.declared.model.Line.TheVariants.{Marking as marking};
ghost use Rattle.runs.specs.declared.model.Answer.TheVariants.{Standing};

use crate::model::{Answer, Call, Lent, Line, Reply};
use envelope::Step;
use fault::Fault;
use line::{Criterion, Cut, Marking};
use list::List;
use loss::model::Loss;
use marks::table::MarkTable;

// How many marks stand, as a reply.
fn standing(res: Result<usize, Fault>) -> Reply
    ensures { result ≡ answered Standing res }
{
    res.map(|standing| Answer::Standing(standing))
}

// The answer, unless the call was refused.
fn replied(res: Result<(), Fault>, answer: Answer) -> Reply
    ensures { result ≡ answered (λ _. answer) res }
{
    res.map(|()| answer)
}

// The path, with no more numbers than are lent.
fn take_path<L: Loss>(
    line: &mut Marking,
    lent: Lent,
    loss: &L,
    marks: &MarkTable,
    steps: &mut List<Step>,
    numbers: &mut [u64],
) -> Result<(), Fault>
    ensures path { PathWritten
        (path_refusal (L.table loss.now) line.old.n (min lent.numbers (length numbers.old)) (length (places steps.old)))
        (L.table loss.now).loss (marks_of marks.now) line.old.shortest line.old.n
        result steps.old steps.new numbers.old numbers.new }
    ensures same { line.new ≡ line.old }
    ensures lender { steps.new.items.ghost_name ≡ steps.old.items.ghost_name }
    ensures room { length (places steps.new) ≡ length (places steps.old) }
{
    let end = lent.numbers.min(numbers.len());
    line.path(loss, marks, &mut numbers[0..end], steps)
}

// The cut, with no more numbers and no longer a trace than are lent.
fn take_cut<L: Loss>(
    line: Marking,
    criterion: Criterion,
    lent: Lent,
    loss: &L,
    marks: &MarkTable,
    boundaries: &mut List<u16>,
    numbers: &mut [u64],
    trace: &mut [u16],
) -> Result<Cut, (Marking, Fault)>
    ensures answer { result ≡ cut_line line (cut_outcome (sought criterion) (L.table loss.now) (marks_of marks.now) line (min lent.numbers (length numbers.old)) (min lent.trace (length trace.old)) (length (places boundaries.old))) }
    ensures cut { Cut-made
        (cut_refusal (sought criterion) (L.table loss.now) line (min lent.numbers (length numbers.old)) (min lent.trace (length trace.old)) (length (places boundaries.old)))
        (cut_winner (sought criterion) (L.table loss.now) (marks_of marks.now) line)
        (cut_total (sought criterion) (L.table loss.now) line)
        (cut_outcome (sought criterion) (L.table loss.now) (marks_of marks.now) line (min lent.numbers (length numbers.old)) (min lent.trace (length trace.old)) (length (places boundaries.old)))
        boundaries.old boundaries.new numbers.old numbers.new trace.old trace.new }
    ensures lender { boundaries.new.items.ghost_name ≡ boundaries.old.items.ghost_name }
{
    let end = lent.numbers.min(numbers.len());
    let past = lent.trace.min(trace.len());
    line.cut(
        loss,
        marks,
        criterion,
        &mut numbers[0..end],
        &mut trace[0..past],
        boundaries,
    )
}

// A call of a line that takes marks.
fn of_marking<L: Loss>(
    mut line: Marking,
    call: Call,
    loss: &L,
    marks: &mut MarkTable,
    boundaries: &mut List<u16>,
    steps: &mut List<Step>,
    numbers: &mut [u64],
    trace: &mut [u16],
) -> (Line, Reply)
    ensures performed { Performed (L.table loss.now) (room boundaries.old steps.old numbers.old trace.old) call result.1
        (state (marking line) marks.old boundaries.old steps.old)
        (state result.0 marks.new boundaries.new steps.new) }
    ensures boundaries { PastKept boundaries.old boundaries.new }
    ensures steps { PastKept steps.old steps.new }
    ensures buffers { (Searched call result.1 → ⊥) → (numbers.new ≡ numbers.old) × (trace.new ≡ trace.old) }
{
    match call {
        Call::Mark(mark) => {
            let result = line.mark(marks, mark);
            (Line::Marking(line), standing(result))
        }
        Call::Unmark(first) => {
            let result = line.unmark(marks, first);
            (Line::Marking(line), standing(result))
        }
        Call::Shortest(m) => {
            let result = line.set_shortest(m);
            (Line::Marking(line), replied(result, Answer::Shortest(m)))
        }
        Call::Path(lent) => {
            let result = take_path(&mut line, lent, loss, marks, steps, numbers);
            (Line::Marking(line), replied(result, Answer::Path))
        }
        Call::Cut(criterion, lent) => {
            match take_cut(
                line, criterion, lent, loss, marks, boundaries, numbers, trace,
            ) {
                Ok(cut) => {
                    let total = cut.total();
                    (Line::Cut(cut), Ok(Answer::Total(total)))
                }
                Err((line, fault)) => (Line::Marking(line), Err(fault)),
            }
        }
        Call::Reopen => (Line::Marking(line), Err(Fault::WrongState)),
    }
}

// One call of a line in either state.
fn carry_out<L: Loss>(
    line: Line,
    call: Call,
    loss: &L,
    marks: &mut MarkTable,
    boundaries: &mut List<u16>,
    steps: &mut List<Step>,
    numbers: &mut [u64],
    trace: &mut [u16],
) -> (Line, Reply)
    ensures performed { Performed (L.table loss.now) (room boundaries.old steps.old numbers.old trace.old) call result.1
        (state line marks.old boundaries.old steps.old)
        (state result.0 marks.new boundaries.new steps.new) }
    ensures boundaries { PastKept boundaries.old boundaries.new }
    ensures steps { PastKept steps.old steps.new }
    ensures buffers { (Searched call result.1 → ⊥) → (numbers.new ≡ numbers.old) × (trace.new ≡ trace.old) }
{
    match line {
        Line::Marking(marking) => {
            of_marking(
                marking, call, loss, marks, boundaries, steps, numbers, trace,
            )
        }
        Line::Cut(cut) => match call {
            Call::Reopen => (Line::Marking(cut.reopen()), Ok(Answer::Reopened)),
            _ => (Line::Cut(cut), Err(Fault::WrongState)),
        },
    }
}

// One call, refused for the first cause that applies: then nothing changes but the buffers of a cut or a path that found no allowed division.
// A call of the other state is refused. Whatever calls were made before it, the law over runs goes on holding.
pub fn perform<L: Loss>(
    line: Line,
    call: Call,
    loss: &L,
    marks: &mut MarkTable,
    boundaries: &mut List<u16>,
    steps: &mut List<Step>,
    numbers: &mut [u64],
    trace: &mut [u16],
) -> (Line, Reply)
    ensures performed { Performed (L.table loss.now) (room boundaries.old steps.old numbers.old trace.old) call result.1
        (state line marks.old boundaries.old steps.old)
        (state result.0 marks.new boundaries.new steps.new) }
    ensures keeps { Keeps (L.table loss.now) (room boundaries.old steps.old numbers.old trace.old) (event call result.1)
        (state line marks.old boundaries.old steps.old)
        (state result.0 marks.new boundaries.new steps.new) }
    ensures boundaries { PastKept boundaries.old boundaries.new }
    ensures steps { PastKept steps.old steps.new }
    ensures buffers { (Searched call result.1 → ⊥) → (numbers.new ≡ numbers.old) × (trace.new ≡ trace.old) }
{
    carry_out(line, call, loss, marks, boundaries, steps, numbers, trace)
}
