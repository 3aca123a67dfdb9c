// A run that nobody watches.
ghost use Rattle.std.specs.Prelude.{◌≡◌, length, MatchResult, OnOk};
ghost use Rattle.fault.specs.Refusal.{RefusedFor};
ghost use Rattle.list.specs.Entries.{entries, places};
ghost use Rattle.runs.specs.State.{room, state, SameSlice, PastKept};
ghost use Rattle.runs.specs.Kept.{Kept};
ghost use Rattle.runs.specs.History.{history};
ghost use Rattle.runs.specs.Best.{view, BestAfter};
ghost use Rattle.runs.specs.Run.{run_refusal};

use crate::model::{Call, Lent, Line, Reply};
use crate::replay::{Watch, replay_watched};
use envelope::Step;
use fault::Fault;
use list::List;
use loss::model::Loss;
use marks::table::MarkTable;

// A watcher that does not look.
#[derive(Drop)]
pub struct Unwatched;

impl Watch for Unwatched {
    fn look<L: Loss>(
        &mut self,
        _loss: &L,
        _calls: &[Call],
        _replies: &List<Reply>,
        _line: &Line,
        _boundaries: &List<u16>,
        _steps: &List<Step>,
        _lent: Lent,
    ) {}
}

// Opens a fresh line and makes every call in turn.
pub fn replay<L: Loss>(
    loss: &L,
    calls: &[Call],
    replies: &mut List<Reply>,
    marks: &mut MarkTable,
    boundaries: &mut List<u16>,
    steps: &mut List<Step>,
    numbers: &mut [u64],
    trace: &mut [u16],
) -> Result<Line, Fault>
    ensures refusal { RefusedFor (run_refusal (L.table loss.now) (length calls.now) (length (places replies.old))) result }
    ensures law { MatchResult result
        (λ line. BestAfter (L.table loss.now) (room boundaries.old steps.old numbers.old trace.old) (history calls.now (entries replies.new)) (view line boundaries.new steps.new))
        (λ _. (marks.new ≡ marks.old) × (boundaries.new ≡ boundaries.old) × (steps.new ≡ steps.old) × (replies.new ≡ replies.old) × (numbers.new ≡ numbers.old) × (trace.new ≡ trace.old)) }
    ensures kept { MatchResult result
        (λ line. Kept (L.table loss.now) (room boundaries.old steps.old numbers.old trace.old) (history calls.now (entries replies.new)) (state line marks.new boundaries.new steps.new))
        (λ _. Unit {0}) }
    ensures replied { OnOk result (length (entries replies.new) ≡ length calls.now) }
    ensures slices { PastKept replies.old replies.new × SameSlice boundaries.old boundaries.new × SameSlice steps.old steps.new }
{
    replay_watched(
        &mut Unwatched,
        loss,
        calls,
        replies,
        marks,
        boundaries,
        steps,
        numbers,
        trace,
    )
}
