// A loss that holds readings of its own and takes them one by one.
ghost use Rattle.std.specs.Prelude.{◌≡◌, ℕ, ◌^◌, ◌≤◌, List, length, ℤ};
ghost use Rattle.std.specs.List.{AllByRecursion};
ghost use Rattle.leaves.specs.Readings.{table_of, Rising, Between};
ghost use Rattle.leaves.specs.Taking.{between, taken, after};

use fault::Fault;
use loss::model::Loss;

// A stretch loses the least, over all whole levels, of the prices of its readings' distances from the level.
pub trait Leaf: Loss {
    // The readings held, in their order.
    ghost readings: { Self → List ℤ };

    // A reading is one of the levels lo, lo + 1, .. lo + span.
    ghost lo: { ℤ };

    ghost span: { ℕ };

    // What a reading costs by its distance from the level.
    ghost price: { ℕ → ℕ };

    // The ceiling.
    ghost dearest: { ℕ };

    // Whether x is a reading for this loss.
    fn accepts(x: i32) -> bool
        ensures { result ≡ between lo span x };

    // Takes one reading behind the others. Refused where it is out of range, then where 512 are held: then nothing changes.
    fn push(&mut self, x: i32) -> Result<(), Fault>
        ensures result { result ≡ taken lo span (readings self.old) x }
        ensures holds { readings self.new ≡ after lo span (readings self.old) x };

    // What the loss stands for is told by its readings alone.
    ghost tied: { (x : Self) → Self.Loss.table x ≡ table_of price dearest (readings x) };

    // It is never too heavy.
    ghost light: { dearest ≤ 2 ^ 40 };

    // A reading further from the level costs no less.
    ghost rises: { Rising price };

    ghost fits: { (x : Self) → AllByRecursion (Between lo span) (readings x) };

    ghost few: { (x : Self) → length (readings x) ≤ 512 };
}
