// How readings are taken, and what stretches lose, by distances.
ghost use Rattle.std.specs.Prelude.{◌≡◌, ℕ, ◌+◌, ◌-◌, ◌<◌, ◌≤◌, [], length, nat_le};
ghost use Rattle.leaves.specs.Readings.{lowest, distance, table_of};
ghost use Rattle.std.specs.List.{count_by};
ghost use Rattle.leaves.specs.Kept.{cost};
ghost use Rattle.leaves.specs.Held.{distances_readings};
ghost use Rattle.leaves.specs.Soundness.{distances_sound, distances_few, held_between};
ghost use Rattle.std.proofs.Common.{arith, rules};

use crate::admit::{LOWEST, SPAN, is_between};
use crate::distances::Distances;
use crate::held::Held;
use crate::model::Leaf;
use fault::Fault;
use loss::model::Loss;

impl Distances {
    // No readings.
    pub fn new() -> Distances
        ensures { distances_readings result ≡ [] }
    {
        Distances { held: Held::new() }
    }
}

impl Leaf for Distances {
    ghost readings = { distances_readings };

    ghost lo = { lowest };

    ghost span = { 65535 };

    ghost price = { distance };

    ghost dearest = { 65535 };

    ghost tied = { first_of (Prim.search rules, Prim.grind (arith, Self.row.coded.inj)) };

    ghost light = { first_of (Prim.search rules, Prim.grind (arith, Self.row.coded.inj)) };

    ghost rises = { first_of (Prim.search rules, Prim.grind (arith, Self.row.coded.inj)) };

    ghost fits = { λ x. held_between lowest 65535 x.held.distances.items x.held.low };

    ghost few = { λ x. distances_few x };

    fn accepts(x: i32) -> bool {
        is_between(LOWEST, SPAN, x)
    }

    fn push(&mut self, x: i32) -> Result<(), Fault> {
        self.held.push(LOWEST, x)?;
        Ok(())
    }
}

// How many readings stand at k or below. A sum of 16 bits, and no `filter` with `count`: LLVM adds eight of them at a time, and each stretch asks
// this 16 times.
fn count_up_to(us: &[u16], k: u16) -> usize
    requires { length us.now ≤ 512 }
    ensures { result ≡ count_by (λ u. nat_le u k) us.now }
{
    let count: u16 = us.iter().map(|u| u16::from(*u <= k)).sum();
    usize::from(count)
}

// The lowest level that half of the readings stand at or below: no level costs less.
// A search over the levels, which stand in no list: the library's searches want a slice.
fn middle(us: &[u16]) -> u16
    requires { length us.now ≤ 512 }
    ensures { (k : ℕ) → cost distance us.now result ≤ cost distance us.now k }
{
    let n = us.len();
    let mut low: u16 = 0;
    let mut high: u16 = 65535;
    while low < high {
        let mid = low + (high - low) / 2;
        let c = count_up_to(us, mid);
        if c + c < n {
            low = mid + 1;
        } else {
            high = mid;
        }
    }
    low
}

// The sum of the distances from v.
fn cost_about(us: &[u16], v: u16) -> u32
    requires { length us.now ≤ 512 }
    ensures { result ≡ cost distance us.now v }
{
    us.iter().map(|u| u32::from(u.abs_diff(v))).sum()
}

impl Loss for Distances {
    ghost table = { λ x. table_of distance 65535 (distances_readings x) };

    ghost sound = { λ x. distances_sound x };

    fn length(&self) -> u16 {
        self.held.length()
    }

    fn ceiling(&self) -> u64 {
        65535
    }

    fn stretch(&self, a: u16, b: u16) -> Result<u64, Fault> {
        if !self.held.has_stretch(a, b) {
            return Err(Fault::BadStretch);
        }
        let part = &self.held.distances()[usize::from(a)..usize::from(b)];
        Ok(u64::from(cost_about(part, middle(part))))
    }
}
