// Filling the rows: each entry from the entries of the starts that can precede its end.
ghost use Rattle.std.specs.Prelude.{◌≡◌, ℕ, ◌+◌, ◌*◌, ◌<◌, ◌≤◌, ◌⊎◌, length, IfSome, Some, None, MatchResult, ◌≢◌, slice_index, slice_set};
ghost use Rattle.tally.specs.Order.{tallying};
ghost use Rattle.constraints.specs.Ranges.{permitted};
ghost use Rattle.search.specs.Starts.{any_number, exactly};
ghost use Rattle.search.specs.Rows.{Picked, AllFit, FirstEntry, value_of, start_of, Row, NextRow, kept_start};

use crate::Search;
use constraints::StartRange;
use fault::Fault;
use loss::model::Loss;
use tally::model::Tally;

// The first start of the range that has an entry in the row at `base`, and the entry.
fn first_entry<T: Tally>(
    tally: &T,
    rows: &[u64],
    base: usize,
    range: StartRange,
) -> Option<(u16, T::Value)>
    requires near { (base ≤ 1000000) × (range.past ≤ 512) }
    requires room { T.stride * (base + range.past) ≤ length rows.now }
    ensures { FirstEntry (λ a. T.held rows.now (base + a)) range.first range.past result }
{
    for start in range.first..range.past {
        if let Some(v) = tally.load(rows, base + start as usize) {
            return Some((start, v));
        }
    }
    None
}

// Keeps a start in the trace at j; a trace that does not reach so far stays as it is.
fn keep_start(trace: &mut [u16], j: usize, start: u16)
    ensures { trace.new ≡ slice_set trace.old j start }
{
    if j < trace.len() {
        trace[j] = start;
    }
}

// Writes what was found: its tally into entry i, its start into the trace at j.
fn write_entry<T: Tally>(
    tally: &T,
    rows: &mut [u64],
    i: usize,
    trace: &mut [u16],
    j: usize,
    found: Option<(T::Value, u16)>,
)
    requires room { T.stride * (i + 1) ≤ length rows.old }
    requires small { IfSome found (λ p. T.fits 512 p.0) }
    ensures here { T.held rows.new i ≡ value_of found }
    ensures others { (k : ℕ) → (k ≢ i) → T.held rows.new k ≡ T.held rows.old k }
    ensures traced { trace.new ≡ slice_set trace.old j (start_of found) }
{
    tally.put(rows, i, found.map(|(v, _)| v));
    keep_start(trace, j, found.map_or(0, |(_, start)| start));
}

impl<L: Loss, T: Tally> Search<'_, L, T> {
    // Over the starts that can precede `end` and have an entry in the row at `base`: the least tally, and of equals the latest start.
    // Not inlined: as a part of a large caller, this loop took up to a quarter longer.
    #[inline(never)]
    pub fn best_start(
        &self,
        rows: &[u64],
        base: usize,
        end: u16,
    ) -> Result<Option<(T::Value, u16)>, Fault>
        requires within { end ≤ self.now.n }
        requires near { base ≤ 1000000 }
        requires room { T.stride * (base + end) ≤ length rows.now }
        requires small { AllFit T.fits (λ a. T.held rows.now (base + a)) end }
        ensures { MatchResult result
            (λ o. Picked (tallying T.zero T.added T.below self.now.tally.now (L.table self.now.loss.now).loss) (λ a. permitted self.now.constraints a end) (λ a. T.held rows.now (base + a)) end end o
            × IfSome o (λ p. T.fits end p.0))
            (λ e. ⊥) }
    {
        let (loss, tally) = (self.loss, self.tally);
        let range = self.constraints.starts_before(end);
        let Some(first) = first_entry(tally, rows, base, range) else {
            return Ok(None);
        };
        let lost = loss.stretch(first.0, end)?;
        // The tally and its start are plain numbers from here on: in an `Option` of a pair, LLVM moves its empty bytes too, in every turn.
        let mut best = tally.add(first.1, first.0, lost);
        let mut latest = first.0;
        for start in first.0 + 1..range.past {
            if let Some(before) = tally.load(rows, base + start as usize) {
                let lost = loss.stretch(start, end)?;
                let v = tally.add(before, start, lost);
                if !tally.less(best, v) {
                    best = v;
                    latest = start;
                }
            }
        }
        Ok(Some((best, latest)))
    }

    // Every entry of the row 0..=n, each from those before it; the trace keeps the last start of each.
    pub fn fill_row(&self, rows: &mut [u64], trace: &mut [u16]) -> Result<(), Fault>
        requires room { T.stride * (self.now.n + 1) ≤ length rows.old }
        requires trace { self.now.n < length trace.old }
        ensures { MatchResult result
            (λ _. Row (tallying T.zero T.added T.below self.now.tally.now (L.table self.now.loss.now).loss) (any_number (permitted self.now.constraints)) (λ _ t. slice_index trace.new t) tt (T.held rows.new) (self.now.n + 1)
            × AllFit T.fits (T.held rows.new) (self.now.n + 1))
            (λ e. ⊥) }
    {
        self.tally.put(rows, 0, Some(self.tally.nothing()));
        for end in 1..self.n + 1 {
            let found = self.best_start(rows, 0, end)?;
            write_entry(self.tally, rows, end as usize, trace, end as usize, found);
        }
        Ok(())
    }

    // The row of no stretch at all: an entry at 0, and no other. By number: an entry takes the tally's stride, so a row is no slice of entries.
    pub(crate) fn first_row(&self, rows: &mut [u64])
        requires { T.stride * (self.now.n + 1) ≤ length rows.old }
        ensures first { T.held rows.new 0 ≡ Some T.zero }
        ensures absent { (t : ℕ) → 0 < t → t < self.now.n + 1 → T.held rows.new t ≡ None }
    {
        self.tally.put(rows, 0, Some(self.tally.nothing()));
        for end in 0..self.n {
            self.tally.put(rows, end as usize + 1, None);
        }
    }

    // The row at `dst`, of one stretch more, from the row at `src`; the trace, if it reaches so far, keeps the last starts from `place` on.
    pub(crate) fn next_row(
        &self,
        rows: &mut [u64],
        src: usize,
        dst: usize,
        trace: &mut [u16],
        place: usize,
    ) -> Result<(), Fault>
        requires near { (src ≤ 1000) × (dst ≤ 1000) × (place ≤ 1000000) }
        requires apart { (src + self.now.n < dst) ⊎ (dst + self.now.n < src) }
        requires source { T.stride * (src + (self.now.n + 1)) ≤ length rows.old }
        requires target { T.stride * (dst + (self.now.n + 1)) ≤ length rows.old }
        requires small { AllFit T.fits (λ a. T.held rows.old (src + a)) (self.now.n + 1) }
        ensures { MatchResult result
            (λ _. NextRow (tallying T.zero T.added T.below self.now.tally.now (L.table self.now.loss.now).loss) (permitted self.now.constraints) T.fits (λ a. T.held rows.old (src + a)) (λ a. T.held rows.new (dst + a))
            (λ t a. place + t < length trace.old → slice_index trace.new (place + t) ≡ a) (self.now.n + 1)
            × ((k : ℕ) → k < place → slice_index trace.new k ≡ slice_index trace.old k)
            × ((k : ℕ) → (k < dst) ⊎ (dst + self.now.n < k) → T.held rows.new k ≡ T.held rows.old k))
            (λ e. ⊥) }
    {
        for end in 0..self.n + 1 {
            let at = end as usize;
            let found = self.best_start(rows, src, end)?;
            write_entry(self.tally, rows, dst + at, trace, place + at, found);
        }
        Ok(())
    }

    // The rows of no stretch up to `stretches` of them, in two places by turns: gives where the last one stands.
    pub fn fill_rows(
        &self,
        stretches: u16,
        rows: &mut [u64],
        trace: &mut [u16],
    ) -> Result<usize, Fault>
        requires count { stretches ≤ 512 }
        requires room { T.stride * ((self.now.n + 1) + (self.now.n + 1)) ≤ length rows.old }
        requires trace { stretches * (self.now.n + 1) ≤ length trace.old }
        ensures { MatchResult result
            (λ base. (base ≤ self.now.n + 1) × Row (tallying T.zero T.added T.below self.now.tally.now (L.table self.now.loss.now).loss) (exactly (permitted self.now.constraints)) (kept_start trace.new (self.now.n + 1)) stretches (λ a. T.held rows.new (base + a)) (self.now.n + 1)
            × AllFit T.fits (λ a. T.held rows.new (base + a)) (self.now.n + 1))
            (λ e. ⊥) }
    {
        self.first_row(rows);
        let width = self.n as usize + 1;
        let mut src = 0;
        let mut dst = width;
        for s in 0..stretches {
            self.next_row(rows, src, dst, trace, s as usize * width)?;
            (src, dst) = (dst, src);
        }
        Ok(src)
    }
}
