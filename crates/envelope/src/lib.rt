// The steps of the path: which count of boundaries is cheapest at each penalty, from the least loss for each count. Each count is a
// straight line over the penalty, loss + penalty * count, and the steps are the lower envelope of these lines.
#![tactic(auto)]

ghost use Rattle.std.specs.Prelude.{◌≡◌, ◌<◌, ◌≤◌, length, Some, IfSome, MatchResult};
ghost use Rattle.list.specs.Entries.{entries, places};
ghost use Rattle.envelope.specs.Theorems.{PathNamesCheapest, OnePath, CountsFall, StepsBegin, OnlyCountsBelow};
ghost use Rattle.envelope.specs.Path.{cost_of, better_count, present, path_at, path_steps, losses_in, largest_penalty};
ghost use Rattle.envelope.specs.Next.{crossing, sooner, Overtaken, Next, Fit, Small, Added, Holding, answer};

use fault::Fault;
use list::List;

// From its penalty on, `count` boundaries are cheapest, with the loss `loss`.
#[derive(Clone, Copy, PartialEq, Eq, Debug)]
pub struct Step {
    pub penalty: u64,
    pub count: u16,
    pub loss: u64,
}

// Stands for the least loss of a count that no allowed division has: a row is a caller's plain numbers, so a number says so, and no `Option`.
pub const ABSENT: u64 = u64::MAX;

impl Step {
    // What it costs at `penalty`: its loss, and the penalty for each boundary.
    fn cost_at(self, penalty: u64) -> u64
        requires penalty { penalty ≤ largest_penalty }
        requires small { Small (Some self) }
        ensures { result ≡ cost_of penalty self.count self.loss }
    {
        self.loss + penalty * u64::from(self.count)
    }

    // The first penalty at which fewer boundaries, `count` with the loss `loss`, cost no more.
    fn crossed_by(self, count: u16, loss: Option<u64>) -> Option<u64>
        requires fewer { count < self.count }
        requires dearer { IfSome loss (λ l. self.loss < l) }
        ensures { result ≡ crossing self count loss }
    {
        Some((loss? - self.loss).div_ceil(u64::from(self.count - count)))
    }
}

// The functions below take the row as it is lent: a struct of it would have to say in each clause that it lends the same one.
// A loss as a caller's row holds it: none where it stands for an absent one.
fn present_loss(loss: u64) -> Option<u64>
    ensures { result ≡ present loss }
{
    (loss != ABSENT).then_some(loss)
}

// The better of the best so far and one more: the one so far where both cost as much.
fn better(best: Option<Step>, this: Step) -> Step
    requires penalty { this.penalty ≤ largest_penalty }
    requires small { (Small best) × (Small (Some this)) }
    ensures { Some result ≡ better_count this.penalty best this.count (Some this.loss) }
{
    match best {
        Some(s) if s.cost_at(this.penalty) <= this.cost_at(this.penalty) => s,
        _ => this,
    }
}

// The count that is cheapest at `penalty`.
fn best_at(losses: &[u64], penalty: u64) -> Option<Step>
    requires fit { Fit losses.now }
    requires penalty { penalty ≤ largest_penalty }
    ensures { result ≡ path_at (losses_in losses.now) penalty (length losses.now) }
{
    let mut best = None;
    for (k, loss) in losses.iter().enumerate() {
        if let Some(loss) = present_loss(*loss) {
            let this = Step {
                penalty,
                count: k as u16,
                loss,
            };
            best = Some(better(best, this));
        }
    }
    best
}

// The lesser of those that there are.
fn earlier(a: Option<u64>, b: Option<u64>) -> Option<u64>
    ensures { result ≡ sooner a b }
{
    match (a, b) {
        (Some(x), Some(y)) => Some(x.min(y)),
        _ => a.or(b),
    }
}

// The first penalty at which a smaller count costs no more than `at`.
fn overtaken(losses: &[u64], at: Step) -> Option<u64>
    requires fit { Fit losses.now }
    requires best { path_at (losses_in losses.now) at.penalty (length losses.now) ≡ Some at }
    ensures { Overtaken (losses_in losses.now) at at.count result }
{
    let mut first = None;
    for (k, loss) in losses[..usize::from(at.count)].iter().enumerate() {
        first = earlier(first, at.crossed_by(k as u16, present_loss(*loss)));
    }
    first
}

fn next_step(losses: &[u64], at: Step) -> Option<Step>
    requires fit { Fit losses.now }
    requires best { path_at (losses_in losses.now) at.penalty (length losses.now) ≡ Some at }
    ensures { Next (losses_in losses.now) (length losses.now) at result }
{
    best_at(losses, overtaken(losses, at)?)
}

fn add(list: &mut List<Step>, s: Step)
    requires { length (entries list.old) < length (places list.old) }
    ensures { Added list.old list.new s }
{
    let _ = list.push(s);
}

fn write_steps(losses: &[u64], first: Step, list: &mut List<Step>)
    requires fit { Fit losses.now }
    requires first { path_at (losses_in losses.now) 0 (length losses.now) ≡ Some first }
    requires room { length losses.now ≤ length (places list.old) }
    ensures holding { Holding (path_steps (losses_in losses.now) (length losses.now)) list.old list.new }
    ensures room { length (places list.new) ≡ length (places list.old) }
{
    list.clear();
    let mut at = first;
    add(list, at);
    while let Some(next) = next_step(losses, at) {
        at = next;
        add(list, at);
    }
}

// Writes the path of the least losses by count; refused, it leaves the list as it stood.
pub fn steps(losses: &[u64], list: &mut List<Step>) -> Result<(), Fault>
    requires { Fit losses.now }
    ensures value { result ≡ answer (length losses.now) (length (places list.old)) (path_at (losses_in losses.now) 0 (length losses.now)) }
    ensures cases { MatchResult result
        (λ _. Holding (path_steps (losses_in losses.now) (length losses.now)) list.old list.new)
        (λ _. list.new ≡ list.old) }
    ensures room { length (places list.new) ≡ length (places list.old) }
{
    if list.capacity() < losses.len() {
        return Err(Fault::ShortBuffer);
    }
    let first = best_at(losses, 0).ok_or(Fault::NoAllowedDivision)?;
    write_steps(losses, first, list);
    Ok(())
}

// At each penalty the path names the cheapest count, the fewest boundaries among equals.
pub fn path_names_cheapest()
    ensures { PathNamesCheapest }
{}

// Just one list of steps is the path.
pub fn one_path()
    ensures { OnePath }
{}

// Counts never rise with the penalty, each step begins where its count first is cheapest, and only counts below n matter.
pub fn steps_begin()
    ensures fall { CountsFall }
    ensures opening { StepsBegin }
    ensures same { OnlyCountsBelow }
{}
