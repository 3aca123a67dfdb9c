// Laying and lifting in a table that the caller lends; a refusal leaves it as it stood.
ghost use Rattle.std.specs.Prelude.{◌≡◌, length, MatchResult};
ghost use Rattle.fault.specs.Refusal.{unless};
ghost use Rattle.marks.specs.Marks.{laid, lifted, lay_refusal, lift_refusal};
ghost use Rattle.marks.specs.Table.{marks_of};

use crate::table::MarkTable;
use division::mark::Mark;
use fault::Fault;

// Lays the mark on a line of `n` readings, and gives how many marks then stand.
pub fn lay_in(table: &mut MarkTable, n: u16, mark: Mark) -> Result<usize, Fault>
    ensures answer { result ≡ unless (lay_refusal n mark (marks_of table.old)) (length (laid mark (marks_of table.old))) }
    ensures table { MatchResult result
        (λ _. marks_of table.new ≡ laid mark (marks_of table.old))
        (λ _. table.new ≡ table.old) }
{
    *table = table.lay(n, mark)?;
    Ok(table.count())
}

// Lifts the mark that begins at `first`, and gives how many marks then stand.
pub fn lift_in(table: &mut MarkTable, first: u16) -> Result<usize, Fault>
    ensures answer { result ≡ unless (lift_refusal first (marks_of table.old)) (length (lifted first (marks_of table.old))) }
    ensures table { MatchResult result
        (λ _. marks_of table.new ≡ lifted first (marks_of table.old))
        (λ _. table.new ≡ table.old) }
{
    *table = table.lift(first)?;
    Ok(table.count())
}
