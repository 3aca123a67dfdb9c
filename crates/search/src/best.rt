// The best stretches to the end of the line, and their boundaries.
ghost use Rattle.std.specs.Prelude.{◌+◌, ◌*◌, ◌<◌, ◌≤◌, length, MatchResult};
ghost use Rattle.tally.specs.Order.{tallying};
ghost use Rattle.constraints.specs.Ranges.{permitted};
ghost use Rattle.search.specs.Starts.{any_number, exactly};
ghost use Rattle.search.specs.Rows.{Found};

use crate::Search;
use crate::trace::read_back;
use fault::Fault;
use loss::model::Loss;
use tally::model::Tally;

impl<L: Loss, T: Tally> Search<'_, L, T> {
    // Over any number of permitted stretches from 0 to n: the least tally, and where the boundaries begin in the trace.
    pub fn best_of_all(
        &self,
        rows: &mut [u64],
        trace: &mut [u16],
    ) -> Result<Option<(T::Value, usize)>, Fault>
        requires some { 0 < self.now.n }
        requires room { T.stride * (self.now.n + 1) ≤ length rows.old }
        requires trace { self.now.n < length trace.old }
        ensures { MatchResult result
            (λ o. Found (tallying T.zero T.added T.below self.now.tally.now (L.table self.now.loss.now).loss) (any_number (permitted self.now.constraints)) (T.fits self.now.n) tt self.now.n (self.now.n + 1) trace.new o)
            (λ e. ⊥) }
    {
        self.fill_row(rows, trace)?;
        // A match, and no `map`: only where there is an entry may the trace be read back.
        match self.tally.load(rows, self.n as usize) {
            Some(v) => {
                let from = read_back(trace, 0, 0, self.n);
                Ok(Some((v, from)))
            }
            None => Ok(None),
        }
    }

    // The same over exactly `stretches` stretches.
    pub fn best_of_count(
        &self,
        stretches: u16,
        rows: &mut [u64],
        trace: &mut [u16],
    ) -> Result<Option<(T::Value, usize)>, Fault>
        requires some { 0 < self.now.n }
        requires count { (0 < stretches) × (stretches ≤ 512) }
        requires room { T.stride * ((self.now.n + 1) + (self.now.n + 1)) ≤ length rows.old }
        requires trace { stretches * (self.now.n + 1) ≤ length trace.old }
        ensures { MatchResult result
            (λ o. Found (tallying T.zero T.added T.below self.now.tally.now (L.table self.now.loss.now).loss) (exactly (permitted self.now.constraints)) (T.fits self.now.n) stretches self.now.n (stretches * (self.now.n + 1)) trace.new o)
            (λ e. ⊥) }
    {
        let base = self.fill_rows(stretches, rows, trace)?;
        let n = self.n;
        // A match, as above.
        match self.tally.load(rows, base + n as usize) {
            Some(v) => {
                let width = n as usize + 1;
                let from = read_back(trace, (stretches as usize - 1) * width, width, n);
                Ok(Some((v, from)))
            }
            None => Ok(None),
        }
    }
}
