// A line that may not be open yet: opening it, and its calls.
ghost use Rattle.std.specs.Prelude.{◌≡◌, ℕ, Some, None, MatchResult};
ghost use Rattle.list.specs.declared.List.{List as Lent-list};
ghost use Rattle.envelope.specs.declared.Step.{Step as Path-step};
ghost use Rattle.fault.specs.Refusal.{unless};
ghost use Rattle.line.specs.Calls.{fresh};
ghost use Rattle.runs.specs.State.{room, PastKept, Searched};
ghost use Rattle.runs.specs.History.{event};
ghost use Rattle.runs.specs.Opened.{opening_refusal, opened_state, OpenedPerformed, OpenedKeeps, BeginsLawful};
ghost use Rattle.runs.specs.declared.model.Line.TheVariants.{Marking as marking};

use crate::model::{Call, Line, Reply};
use crate::perform::perform;
use envelope::Step;
use fault::Fault;
use line::Marking;
use list::List;
use loss::model::Loss;
use marks::table::MarkTable;

// Opens a fresh line over the loss, unless one is open, and says how many readings it has.
pub fn open_line<L: Loss>(
    line: &mut Option<Line>,
    loss: &L,
    marks: &mut MarkTable,
) -> Result<u16, Fault>
    ensures answer { result ≡ unless (opening_refusal line.old (L.table loss.now)) (L.table loss.now).length }
    ensures opened { MatchResult result
        (λ _. (line.new ≡ Some (marking (fresh (L.table loss.now))))
        × ((bs : Lent-list ℕ) (ss : Lent-list Path-step) → BeginsLawful (L.table loss.now) (opened_state line.new marks.new bs ss)))
        (λ _. (line.new ≡ line.old) × (marks.new ≡ marks.old)) }
{
    if line.is_some() {
        return Err(Fault::WrongState);
    }
    let opened = Marking::open(loss, marks)?;
    let n = opened.readings();
    *line = Some(Line::Marking(opened));
    Ok(n)
}

// One call of a line that may not be open yet: then it is refused, and nothing changes.
pub fn call_line<L: Loss>(
    line: &mut Option<Line>,
    call: Call,
    loss: &L,
    marks: &mut MarkTable,
    boundaries: &mut List<u16>,
    steps: &mut List<Step>,
    numbers: &mut [u64],
    trace: &mut [u16],
) -> Reply
    ensures performed { OpenedPerformed (L.table loss.now) (room boundaries.old steps.old numbers.old trace.old) call result
        (opened_state line.old marks.old boundaries.old steps.old)
        (opened_state line.new marks.new boundaries.new steps.new) }
    ensures keeps { OpenedKeeps (L.table loss.now) (room boundaries.old steps.old numbers.old trace.old) (event call result)
        (opened_state line.old marks.old boundaries.old steps.old)
        (opened_state line.new marks.new boundaries.new steps.new) }
    ensures shut { line.old ≡ None → (marks.new ≡ marks.old) × (boundaries.new ≡ boundaries.old) × (steps.new ≡ steps.old) }
    ensures boundaries { PastKept boundaries.old boundaries.new }
    ensures steps { PastKept steps.old steps.new }
    ensures buffers { (Searched call result → ⊥) → (numbers.new ≡ numbers.old) × (trace.new ≡ trace.old) }
{
    let Some(open) = line.take() else {
        return Err(Fault::WrongState);
    };
    let (next, reply) = perform(open, call, loss, marks, boundaries, steps, numbers, trace);
    *line = Some(next);
    reply
}
