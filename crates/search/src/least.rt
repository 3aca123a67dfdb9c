// The least tally for each number of stretches, with no trace.
ghost use Rattle.std.specs.Prelude.{ℕ, ◌+◌, ◌*◌, ◌<◌, ◌≤◌, length, MatchResult, nat_lt};
ghost use Rattle.tally.specs.Order.{tallying};
ghost use Rattle.tally.specs.Entries.{loss_held, loss_added};
ghost use Rattle.constraints.specs.Ranges.{permitted};
ghost use Rattle.search.specs.Starts.{exactly};
ghost use Rattle.search.specs.Rows.{Least};
ghost use Rattle.search.specs.Usable.{Usable};

use crate::Search;
use constraints::Constraints;
use fault::Fault;
use loss::model::Loss;
use tally::by_loss::ByLoss;
use tally::model::Tally;

impl<L: Loss, T: Tally> Search<'_, L, T> {
    // For each k below n: what the best k + 1 stretches from 0 to n tally, in entry 2 (n + 1) + k. The rows take turns as in `fill_rows`, with
    // no trace.
    pub fn least_tallies(&self, rows: &mut [u64]) -> Result<(), Fault>
        requires { T.stride * (3 * (self.now.n + 1)) ≤ length rows.old }
        ensures { MatchResult result
            (λ _. ((k : ℕ) → k < self.now.n → Least (tallying T.zero T.added T.below self.now.tally.now (L.table self.now.loss.now).loss) (exactly (permitted self.now.constraints)) (k + 1) self.now.n (T.held rows.new (2 * (self.now.n + 1) + k))))
            (λ e. ⊥) }
    {
        self.first_row(rows);
        let width = self.n as usize + 1;
        let mut src = 0;
        let mut dst = width;
        for k in 0..self.n {
            self.next_row(rows, src, dst, &mut [], 0)?;
            let least = self.tally.load(rows, dst + self.n as usize);
            self.tally.put(rows, 2 * width + k as usize, least);
            (src, dst) = (dst, src);
        }
        Ok(())
    }
}

// For each k below n: the least loss of k boundaries over permitted stretches, or the largest number where there are none, in number 2 (n + 1) + k.
pub fn least_losses<L: Loss>(
    loss: &L,
    constraints: &Constraints<'_>,
    n: u16,
    numbers: &mut [u64],
) -> Result<(), Fault>
    requires size { n ≤ 512 }
    requires room { 3 * (n + 1) ≤ length numbers.old }
    requires usable { Usable (L.table loss.now) n }
    ensures { MatchResult result
        (λ _. ((k : ℕ) → k < n → Least (tallying 0 loss_added nat_lt loss.now (L.table loss.now).loss) (exactly (permitted constraints.now)) (k + 1) n (loss_held numbers.new (2 * (n + 1) + k))))
        (λ e. ⊥) }
{
    let search = Search {
        loss,
        tally: &ByLoss,
        constraints: *constraints,
        n,
    };
    search.least_tallies(numbers)
}
