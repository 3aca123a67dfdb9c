// A cut: the winning division's boundaries into the list, and its total.
ghost use Rattle.std.specs.Prelude.{◌≡◌, ◌≤◌, ◌++◌, length, drop};
ghost use Rattle.list.specs.Entries.{entries, places};
ghost use Rattle.marks.specs.Table.{marks_of};
ghost use Rattle.division.specs.Winner.{by_penalty, by_count, winner, total as total_of};
ghost use Rattle.search.specs.Rows.{part};
ghost use Rattle.cuts.specs.Outcome.{penalty_refusal, count_refusal, Cut};
ghost use Rattle.cuts.specs.Criterion.{sought, refusal_of};
ghost use Rattle.cuts.specs.Found.{Looked};

use crate::criterion::Criterion;
use crate::refusal::{Room, check_by_count, check_by_penalty};
use constraints::Constraints;
use fault::Fault;
use list::List;
use loss::model::Loss;
use search::Search;
use tally::by_loss::ByLoss;
use tally::by_penalty::ByPenalty;

// The winner where a search left it: its total, and the places of its boundaries in the trace, `from` to `end` - 1.
#[derive(Clone, Copy)]
struct Found {
    total: u64,
    from: usize,
    end: usize,
}

// The places `from` to `end` - 1 of the trace in place of the list's entries.
fn set_boundaries(boundaries: &mut List<u16>, trace: &[u16], from: usize, end: usize)
    requires order { (from ≤ end) × (end ≤ length trace.now) }
    requires room { length (part from end trace.now) ≤ length (places boundaries.old) }
    ensures entries { entries boundaries.new ≡ part from end trace.now }
    ensures places { places boundaries.new ≡ part from end trace.now ++ drop (length (part from end trace.now)) (places boundaries.old) }
    ensures lender { boundaries.new.items.ghost_name ≡ boundaries.old.items.ghost_name }
{
    // There is room.
    let _ = boundaries.replace(&trace[from..end]);
}

// The allowed division of the least loss and penalties, in the trace. By penalty and by count have a tally and a search each; what they
// share is `Found`.
fn best_by_penalty<L: Loss>(
    loss: &L,
    constraints: &Constraints<'_>,
    penalty: u64,
    numbers: &mut [u64],
    trace: &mut [u16],
    places: usize,
) -> Result<Option<Found>, Fault>
    ensures { Looked
        (penalty_refusal (L.table loss.now) constraints.now.n penalty (length numbers.old) (length trace.old) places)
        (winner (by_penalty penalty) (L.table loss.now).loss (marks_of constraints.now.marks.now) constraints.now.shortest constraints.now.n)
        (total_of (by_penalty penalty) (L.table loss.now).loss constraints.now.n)
        places result numbers.old numbers.new trace.old trace.new }
{
    let n = constraints.n;
    let room = Room {
        numbers: numbers.len(),
        trace: trace.len(),
        places,
    };
    check_by_penalty(loss, n, penalty, room)?;
    let search = Search {
        loss,
        tally: &ByPenalty::new(penalty),
        constraints: *constraints,
        n,
    };
    // A match, and no `map`: each arm has a lemma of its own, that none is allowed or that this one wins.
    match search.best_of_all(numbers, trace)? {
        Some(((total, _), from)) => Ok(Some(Found {
            total,
            from,
            end: n as usize + 1,
        })),
        None => Ok(None),
    }
}

// The allowed division of the least loss with `count` boundaries, in the trace.
fn best_by_count<L: Loss>(
    loss: &L,
    constraints: &Constraints<'_>,
    count: u16,
    numbers: &mut [u64],
    trace: &mut [u16],
    places: usize,
) -> Result<Option<Found>, Fault>
    ensures { Looked
        (count_refusal (L.table loss.now) constraints.now.n count (length numbers.old) (length trace.old) places)
        (winner (by_count count) (L.table loss.now).loss (marks_of constraints.now.marks.now) constraints.now.shortest constraints.now.n)
        (total_of (by_count count) (L.table loss.now).loss constraints.now.n)
        places result numbers.old numbers.new trace.old trace.new }
{
    let n = constraints.n;
    let room = Room {
        numbers: numbers.len(),
        trace: trace.len(),
        places,
    };
    check_by_count(loss, n, count, room)?;
    let search = Search {
        loss,
        tally: &ByLoss,
        constraints: *constraints,
        n,
    };
    // A match, as above.
    match search.best_of_count(count + 1, numbers, trace)? {
        Some((total, from)) => Ok(Some(Found {
            total,
            from,
            end: (count as usize + 1) * (n as usize + 1),
        })),
        None => Ok(None),
    }
}

// The allowed division that the criterion asks for, in the trace.
fn best<L: Loss>(
    loss: &L,
    constraints: &Constraints<'_>,
    criterion: Criterion,
    numbers: &mut [u64],
    trace: &mut [u16],
    places: usize,
) -> Result<Option<Found>, Fault>
    ensures { Looked
        (refusal_of (sought criterion) (L.table loss.now) constraints.now.n (length numbers.old) (length trace.old) places)
        (winner (sought criterion) (L.table loss.now).loss (marks_of constraints.now.marks.now) constraints.now.shortest constraints.now.n)
        (total_of (sought criterion) (L.table loss.now).loss constraints.now.n)
        places result numbers.old numbers.new trace.old trace.new }
{
    match criterion {
        Criterion::Penalty(penalty) => {
            best_by_penalty(loss, constraints, penalty, numbers, trace, places)
        }
        Criterion::Count(count) => best_by_count(loss, constraints, count, numbers, trace, places),
    }
}

// The allowed division of the least loss and penalties, or of the least loss with that number of boundaries.
pub fn cut<L: Loss>(
    loss: &L,
    constraints: &Constraints<'_>,
    criterion: Criterion,
    numbers: &mut [u64],
    trace: &mut [u16],
    boundaries: &mut List<u16>,
) -> Result<u64, Fault>
    ensures cut { Cut
        (refusal_of (sought criterion) (L.table loss.now) constraints.now.n (length numbers.old) (length trace.old) (length (places boundaries.old)))
        (winner (sought criterion) (L.table loss.now).loss (marks_of constraints.now.marks.now) constraints.now.shortest constraints.now.n)
        (total_of (sought criterion) (L.table loss.now).loss constraints.now.n)
        result boundaries.old boundaries.new numbers.old numbers.new trace.old trace.new }
    ensures lender { boundaries.new.items.ghost_name ≡ boundaries.old.items.ghost_name }
{
    let places = boundaries.capacity();
    let found = best(loss, constraints, criterion, numbers, trace, places)?;
    let Found { total, from, end } = found.ok_or(Fault::NoAllowedDivision)?;
    set_boundaries(boundaries, trace, from, end);
    Ok(total)
}
