// The least loss for each number of boundaries.
ghost use Rattle.std.specs.Prelude.{◌≡◌, ℕ, ◌+◌, ◌*◌, ◌<◌, ◌≤◌, length, MatchResult};
ghost use Rattle.std.specs.Option.{option_map};
ghost use Rattle.marks.specs.Table.{marks_of};
ghost use Rattle.division.specs.Winner.{by_count, winner, total};
ghost use Rattle.tally.specs.Entries.{loss_held};
ghost use Rattle.search.specs.Usable.{Usable};

use constraints::Constraints;
use fault::Fault;
use loss::model::Loss;
use search::least::least_losses;

// For each k below n: the loss of the winner by count k, or the largest number where there is none, in number 2 (n + 1) + k.
pub fn least_by_count<L: Loss>(
    loss: &L,
    constraints: &Constraints<'_>,
    numbers: &mut [u64],
) -> Result<(), Fault>
    requires size { (0 < constraints.now.n) × (constraints.now.n ≤ 512) }
    requires room { 3 * (constraints.now.n + 1) ≤ length numbers.old }
    requires usable { Usable (L.table loss.now) constraints.now.n }
    ensures { MatchResult result
        (λ _. ((k : ℕ) → k < constraints.now.n → loss_held numbers.new (2 * (constraints.now.n + 1) + k)
        ≡ option_map (total (by_count k) (L.table loss.now).loss constraints.now.n) (winner (by_count k) (L.table loss.now).loss (marks_of constraints.now.marks.now) constraints.now.shortest constraints.now.n)))
        (λ e. ⊥) }
{
    least_losses(loss, constraints, constraints.n, numbers)
}
