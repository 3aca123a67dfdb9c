// What refuses a cut before the search is begun.
ghost use Rattle.std.specs.Prelude.{◌≡◌};
ghost use Rattle.fault.specs.Refusal.{RefusedFor};
ghost use Rattle.cuts.specs.Outcome.{room_refusal, penalty_refusal, count_refusal};

use fault::Fault;
use loss::check::check_line;
use loss::limits::LARGEST_PENALTY;
use loss::model::Loss;

// How many numbers, starts and boundaries the caller has lent room for.
#[derive(Clone, Copy)]
pub(crate) struct Room {
    pub(crate) numbers: usize,
    pub(crate) trace: usize,
    pub(crate) places: usize,
}

// Is there room for a search with so many rows of the trace?
fn check_room(n: u16, rows: u16, room: Room) -> Result<(), Fault>
    ensures { RefusedFor (room_refusal n rows room.numbers room.trace room.places) result }
{
    let width = n as usize + 1;
    if room.numbers < 3 * width {
        return Err(Fault::ShortBuffer);
    }
    if room.trace < rows as usize * width {
        return Err(Fault::ShortBuffer);
    }
    if room.places < n.saturating_sub(1) as usize {
        return Err(Fault::ShortBuffer);
    }
    Ok(())
}

// By penalty and by count have a check each: they share two calls.
pub(crate) fn check_by_penalty<L: Loss>(
    loss: &L,
    n: u16,
    penalty: u64,
    room: Room,
) -> Result<(), Fault>
    ensures { RefusedFor (penalty_refusal (L.table loss.now) n penalty room.numbers room.trace room.places) result }
{
    if penalty > LARGEST_PENALTY {
        return Err(Fault::BadPenalty);
    }
    check_line(loss, n)?;
    check_room(n, 1, room)
}

pub(crate) fn check_by_count<L: Loss>(loss: &L, n: u16, count: u16, room: Room) -> Result<(), Fault>
    ensures { RefusedFor (count_refusal (L.table loss.now) n count room.numbers room.trace room.places) result }
{
    if count >= n {
        return Err(Fault::BadCount);
    }
    check_line(loss, n)?;
    check_room(n, count + 1, room)
}
