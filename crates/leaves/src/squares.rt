// Readings from -32768 to 32767. A stretch loses the least sum of squares of their distances from one whole level.
ghost use Rattle.leaves.specs.Kept.{Before};

pub mod methods;

use crate::held::Held;

// The sum of some readings' distances from the lowest level, and the sum of the squares of these distances.
#[derive(Clone, Copy)]
struct Sums {
    distances: u64,
    squares: u64,
}

// For each place the sums over the readings before it, and the readings. The sums stand first: behind the readings they lie across
// cache lines, and a cut by count took a sixth longer.
#[derive(Drop)]
pub struct Squares {
    // an array, and no `ArrayVec`: one place more than readings, and `held` has the length
    before: [Sums; 513],
    held: Held<65535>,
    ghost adds: { Before held.distances.items before },
}
