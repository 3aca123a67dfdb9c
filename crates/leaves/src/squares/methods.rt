// How readings are taken, and what stretches lose, by squares.
ghost use Rattle.std.specs.Prelude.{◌≡◌, ◌+◌, ◌-◌, ◌*◌, ◌/◌, ◌%◌, ◌^◌, ◌<◌, ◌≤◌, []};
ghost use Rattle.leaves.specs.Readings.{lowest, square, table_of};
ghost use Rattle.leaves.specs.Kept.{nearest};
ghost use Rattle.leaves.specs.Held.{squares_readings};
ghost use Rattle.leaves.specs.Soundness.{squares_sound, squares_few, held_between};
ghost use Rattle.leaves.specs.LeastLevel.{rising_square};
ghost use Rattle.std.proofs.Common.{arith, rules};

use crate::admit::{LOWEST, SPAN, is_between};
use crate::held::Held;
use crate::model::Leaf;
use crate::squares::{Squares, Sums};
use fault::Fault;
use loss::model::Loss;

impl Squares {
    // No readings.
    pub fn new() -> Squares
        ensures { squares_readings result ≡ [] }
    {
        let none = Sums {
            distances: 0,
            squares: 0,
        };
        Squares {
            before: [none; 513],
            held: Held::new(),
        }
    }
}

impl Leaf for Squares {
    ghost readings = { squares_readings };

    ghost lo = { lowest };

    ghost span = { 65535 };

    ghost price = { square };

    ghost dearest = { 2 ^ 32 };

    ghost tied = { first_of (Prim.search rules, Prim.grind (arith, Self.row.coded.inj)) };

    ghost light = { first_of (Prim.search rules, Prim.grind (arith, Self.row.coded.inj)) };

    ghost rises = { rising_square };

    ghost fits = { λ x. held_between lowest 65535 x.held.distances.items x.held.low };

    ghost few = { λ x. squares_few x };

    fn accepts(x: i32) -> bool {
        is_between(LOWEST, SPAN, x)
    }

    fn push(&mut self, x: i32) -> Result<(), Fault> {
        let at = self.held.distances().len();
        let distance = u64::from(self.held.push(LOWEST, x)?);
        let sums = self.before[at];
        self.before[at + 1] = Sums {
            distances: sums.distances + distance,
            squares: sums.squares + distance * distance,
        };
        Ok(())
    }
}

// The whole level nearest to the mean s / n: no level costs less.
fn nearest_level(s: u64, n: u64) -> u64
    requires { (0 < n) × ((n ≤ 512) × (s ≤ n * 65535)) }
    ensures value { result ≡ nearest s n }
    ensures small { result ≤ 65536 }
{
    // Both fit in 32 bits, which are divided faster.
    let (s, n) = (s as u32, n as u32);
    let mean = s / n;
    u64::from(if s % n + s % n <= n { mean } else { mean + 1 })
}

impl Loss for Squares {
    ghost table = { λ x. table_of square (2 ^ 32) (squares_readings x) };

    ghost sound = { λ x. squares_sound x };

    fn length(&self) -> u16 {
        self.held.length()
    }

    fn ceiling(&self) -> u64 {
        1 << 32
    }

    fn stretch(&self, a: u16, b: u16) -> Result<u64, Fault> {
        if !self.held.has_stretch(a, b) {
            return Err(Fault::BadStretch);
        }
        let before = self.before[usize::from(a)];
        let all = self.before[usize::from(b)];
        let n = u64::from(b - a);
        let s = all.distances - before.distances;
        let q = all.squares - before.squares;
        let v = nearest_level(s, n);
        Ok(q + n * v * v - 2 * v * s)
    }
}
