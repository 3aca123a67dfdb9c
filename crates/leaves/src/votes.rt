// Readings that are codes of classes, 0 to 15. A stretch loses the least number of readings that differ from one class.
ghost use Rattle.leaves.specs.Kept.{Counts, Wide};

pub mod methods;

use crate::held::Held;

// The codes, and for each place how many readings of each class stand before it.
#[derive(Drop)]
pub struct Votes {
    held: Held<15>,
    // an array, and no `ArrayVec`: one row more than readings, and `held` has the length
    counts: [[u16; 16]; 513],
    ghost wide: { Wide counts },
    ghost tallied: { Counts held.distances.items counts },
}
