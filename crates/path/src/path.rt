// The path of a line, into a list of steps.
ghost use Rattle.std.specs.Prelude.{◌≡◌, length};
ghost use Rattle.fault.specs.Refusal.{RefusedFor};
ghost use Rattle.list.specs.Entries.{places};
ghost use Rattle.marks.specs.Table.{marks_of};
ghost use Rattle.path.specs.Outcome.{path_refusal, PathWritten};

use constraints::Constraints;
use cuts::least::least_by_count;
use envelope::{Step, steps};
use fault::Fault;
use list::List;
use loss::check::check_line;
use loss::model::Loss;

// What refuses a path before the search is begun.
fn check_path<L: Loss>(loss: &L, n: u16, numbers: usize, room: usize) -> Result<(), Fault>
    ensures { RefusedFor (path_refusal (L.table loss.now) n numbers room) result }
{
    check_line(loss, n)?;
    if numbers < 3 * (n as usize + 1) || room < n as usize {
        return Err(Fault::ShortBuffer);
    }
    Ok(())
}

// For every penalty, the count of boundaries that wins there and its loss, as steps. Refused, it leaves the list as it stood.
pub fn path<L: Loss>(
    loss: &L,
    constraints: &Constraints<'_>,
    numbers: &mut [u64],
    list: &mut List<Step>,
) -> Result<(), Fault>
    ensures path { PathWritten
        (path_refusal (L.table loss.now) constraints.now.n (length numbers.old) (length (places list.old)))
        (L.table loss.now).loss (marks_of constraints.now.marks.now) constraints.now.shortest constraints.now.n
        result list.old list.new numbers.old numbers.new }
    ensures lender { list.new.items.ghost_name ≡ list.old.items.ghost_name }
    ensures room { length (places list.new) ≡ length (places list.old) }
{
    let n = constraints.n;
    check_path(loss, n, numbers.len(), list.capacity())?;
    least_by_count(loss, constraints, numbers)?;
    let from = 2 * (n as usize + 1);
    let to = from + n as usize;
    steps(&numbers[from..to], list)
}
