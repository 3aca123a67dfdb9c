// A line of two sides: port by squares, and starboard by votes that weigh 100.
ghost use Rattle.std.specs.Prelude.{◌≡◌, length};
ghost use Rattle.leaves.specs.Held.{squares_readings};
ghost use Rattle.leaves.specs.Held.{votes_readings};

use layers::pair::Pair;
use layers::weighted::Weighted;
use leaves::squares::Squares;
use leaves::votes::Votes;

// Both sides have as many readings.
#[derive(Drop)]
pub struct PairReadings {
    pub(crate) pair: Pair<Squares, Weighted<Votes>>,
    ghost weight: { pair.starboard.weight ≡ 100 },
    ghost even: { length (votes_readings pair.starboard.below) ≡ length (squares_readings pair.port) },
}
