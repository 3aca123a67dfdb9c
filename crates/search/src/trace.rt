// Reading the boundaries back from a trace.
ghost use Rattle.std.specs.Prelude.{◌≡◌, ℕ, ◌+◌, ◌<◌, ◌≤◌, List, [], length};
ghost use Rattle.search.specs.Starts.{Falling, boundaries_of};
ghost use Rattle.search.specs.Rows.{Traced, start_at, row_before, part};

// Follows the trace back from n, whose row begins at `last_row`, and writes the boundaries in rising order behind the places that it
// still reads, up to the place of n. Gives where they begin.
pub fn read_back(trace: &mut [u16], last_row: usize, width: usize, n: u16) -> usize
    requires size { (0 < n) × (n ≤ 512) × (last_row ≤ 1000000) }
    requires room { last_row + n < length trace.old }
    requires leads { (ds : List ℕ) × Falling n ds × Traced (row_before width) (start_at trace.old) last_row n ds }
    ensures place { result ≤ last_row + n + 1 }
    ensures boundaries { (ds : List ℕ) → Falling n ds → Traced (row_before width) (start_at trace.old) last_row n ds → part result (last_row + n + 1) trace.new ≡ boundaries_of ds [] }
{
    // Each start tells the place of the one before it: there is no sequence to iterate over.
    let mut from = last_row + n as usize + 1;
    let mut row = last_row;
    let mut start = trace[last_row + n as usize];
    while start > 0 {
        row = row.saturating_sub(width);
        let before = trace[row + start as usize];
        from -= 1;
        trace[from] = start;
        start = before;
    }
    from
}
