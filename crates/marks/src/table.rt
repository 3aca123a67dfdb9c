// The table of the marks that stand.
ghost use Rattle.std.specs.Prelude.{◌≡◌, ◌≤◌, true, length, take};
ghost use Rattle.marks.specs.Marks.{in_order};

use division::mark::Mark;

mod change;
mod find;
mod part;

// The first `len` places hold the marks that stand, in rising order; no two of them share a gap.
// An array with its length, and no `ArrayVec`: callers may copy a table, and an `ArrayVec` is not `Copy`.
#[derive(Clone, Copy)]
pub struct MarkTable {
    marks: [Mark; 64],
    len: usize,
    ghost whole: { length marks ≡ 64 },
    ghost few: { len ≤ 64 },
    ghost rising: { in_order 1 (take len marks) ≡ true },
}
