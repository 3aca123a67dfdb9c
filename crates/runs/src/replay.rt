// A run of calls from a fresh line, with the law over runs.
ghost use Rattle.std.specs.Prelude.{◌≡◌, [], length, MatchResult, OnOk};
ghost use Rattle.fault.specs.Refusal.{unless};
ghost use Rattle.list.specs.Entries.{entries, places};
ghost use Rattle.marks.specs.Table.{marks_of};
ghost use Rattle.line.specs.Calls.{fresh};
ghost use Rattle.runs.specs.State.{room, room_of, state, SameSlice, PastKept};
ghost use Rattle.runs.specs.Kept.{Kept};
ghost use Rattle.runs.specs.History.{history};
ghost use Rattle.runs.specs.Best.{view, BestAfter};
ghost use Rattle.runs.specs.Run.{run_refusal};
ghost use Rattle.fault.specs.Refusal.{RefusedFor};

use crate::model::{Call, Lent, Line, Reply};
use crate::perform::perform;
use envelope::Step;
use fault::Fault;
use line::Marking;
use list::List;
use loss::model::Loss;
use marks::table::MarkTable;

// Whoever looks at a line between its calls: it is told the calls so far with their replies, and may read the lists.
pub trait Watch {
    fn look<L: Loss>(
        &mut self,
        loss: &L,
        calls: &[Call],
        replies: &List<Reply>,
        line: &Line,
        boundaries: &List<u16>,
        steps: &List<Step>,
        lent: Lent,
    )
        requires { BestAfter (L.table loss.now) (room_of lent.numbers lent.trace boundaries.now steps.now) (history calls.now (entries replies.now)) (view line.now boundaries.now steps.now) };
}

// A fresh line over the loss, no marks, and no replies yet.
fn begin<L: Loss>(
    loss: &L,
    calls: usize,
    replies: &mut List<Reply>,
    marks: &mut MarkTable,
) -> Result<Marking, Fault>
    ensures answer { result ≡ unless (run_refusal (L.table loss.now) calls (length (places replies.old))) (fresh (L.table loss.now)) }
    ensures marks { MatchResult result (λ _. marks_of marks.new ≡ []) (λ _. marks.new ≡ marks.old) }
    ensures replies { MatchResult result (λ _. (entries replies.new ≡ []) × (places replies.new ≡ places replies.old)) (λ _. replies.new ≡ replies.old) }
    ensures slice { SameSlice replies.old replies.new }
{
    let mut none = *marks;
    let line = Marking::open(loss, &mut none)?;
    if replies.capacity() < calls {
        return Err(Fault::ShortBuffer);
    }
    *marks = none;
    replies.clear();
    Ok(line)
}

// Opens a fresh line and makes every call in turn; the watcher looks before each and after the last.
pub fn replay_watched<L: Loss, W: Watch>(
    watcher: &mut W,
    loss: &L,
    calls: &[Call],
    replies: &mut List<Reply>,
    marks: &mut MarkTable,
    boundaries: &mut List<u16>,
    steps: &mut List<Step>,
    numbers: &mut [u64],
    trace: &mut [u16],
) -> Result<Line, Fault>
    ensures refusal { RefusedFor (run_refusal (L.table loss.now) (length calls.now) (length (places replies.old))) result }
    ensures law { MatchResult result
        (λ line. BestAfter (L.table loss.now) (room boundaries.old steps.old numbers.old trace.old) (history calls.now (entries replies.new)) (view line boundaries.new steps.new))
        (λ _. (marks.new ≡ marks.old) × (boundaries.new ≡ boundaries.old) × (steps.new ≡ steps.old) × (replies.new ≡ replies.old) × (numbers.new ≡ numbers.old) × (trace.new ≡ trace.old)) }
    ensures kept { MatchResult result
        (λ line. Kept (L.table loss.now) (room boundaries.old steps.old numbers.old trace.old) (history calls.now (entries replies.new)) (state line marks.new boundaries.new steps.new))
        (λ _. Unit {0}) }
    ensures replied { OnOk result (length (entries replies.new) ≡ length calls.now) }
    ensures slices { PastKept replies.old replies.new × SameSlice boundaries.old boundaries.new × SameSlice steps.old steps.new }
{
    let mut line = Line::Marking(begin(loss, calls.len(), replies, marks)?);
    let lent = Lent {
        numbers: numbers.len(),
        trace: trace.len(),
    };
    // i says how many calls are made: the watcher is told just those.
    for i in 0..calls.len() {
        watcher.look(loss, &calls[..i], replies, &line, boundaries, steps, lent);
        let (next, reply) = perform(
            line, calls[i], loss, marks, boundaries, steps, numbers, trace,
        );
        line = next;
        let _ = replies.push(reply);
    }
    watcher.look(loss, calls, replies, &line, boundaries, steps, lent);
    Ok(line)
}
