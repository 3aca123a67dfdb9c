// The search by dynamic programming for the best stretches to every end of a line, over any loss and any tally.
#![tactic(auto)]

ghost use Rattle.std.specs.Prelude.{◌≤◌};
ghost use Rattle.search.specs.Usable.{Usable};

use constraints::Constraints;
use loss::model::Loss;
use tally::model::Tally;

pub mod best;
pub mod least;
pub mod rows;
pub mod trace;

// What is searched: the stretches that the constraints permit on the first n readings of a loss, compared by a tally. The n is its own, since
// a search may stop before the line does. Its answers are a `Result`, since the loss answers so; over what `usable` says it never refuses.
// Readings are widened by `as`, which the check holds to lose nothing, and which adds no call to the proofs.
#[derive(Drop)]
pub struct Search<'a, L: Loss, T: Tally> {
    pub loss: &'a L,
    pub tally: &'a T,
    pub constraints: Constraints<'a>,
    pub n: u16,
    ghost size: { n ≤ 512 },
    ghost usable: { Usable (L.table loss.now) n },
}
