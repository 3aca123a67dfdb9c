// How readings are taken, and what stretches lose, by votes.
ghost use Rattle.std.specs.Prelude.{◌≡◌, ◌-◌, max, [], map, pos};
ghost use Rattle.std.specs.List.{fold, zip};
ghost use Rattle.leaves.specs.Readings.{differs, table_of};
ghost use Rattle.leaves.specs.Held.{votes_readings};
ghost use Rattle.leaves.specs.Soundness.{votes_sound, votes_few, held_between};
ghost use Rattle.std.proofs.Common.{arith, rules};

use crate::admit::is_between;
use crate::held::Held;
use crate::model::Leaf;
use crate::votes::Votes;
use fault::Fault;
use loss::model::Loss;

impl Votes {
    // No readings.
    pub fn new() -> Votes
        ensures { votes_readings result ≡ [] }
    {
        Votes {
            held: Held::new(),
            counts: [[0; 16]; 513],
        }
    }
}

impl Leaf for Votes {
    ghost readings = { votes_readings };

    ghost lo = { pos 0 };

    ghost span = { 15 };

    ghost price = { differs };

    ghost dearest = { 1 };

    ghost tied = { first_of (Prim.search rules, Prim.grind (arith, Self.row.coded.inj)) };

    ghost light = { first_of (Prim.search rules, Prim.grind (arith, Self.row.coded.inj)) };

    ghost rises = { first_of (Prim.search rules, Prim.grind (arith, Self.row.coded.inj)) };

    ghost fits = { λ x. held_between (pos 0) 15 x.held.distances.items x.held.low };

    ghost few = { λ x. votes_few x };

    fn accepts(x: i32) -> bool {
        is_between(0, 15, x)
    }

    fn push(&mut self, x: i32) -> Result<(), Fault> {
        let at = self.held.distances().len();
        let code = self.held.push(0, x)?;
        let mut row = self.counts[at];
        row[usize::from(code)] += 1;
        self.counts[at + 1] = row;
        Ok(())
    }
}

// The most readings that one class has between two places, from the counts before each.
fn most_votes(before: &[u16; 16], after: &[u16; 16]) -> u16
    ensures { result ≡ fold max 0 (map (λ p. p.0 - p.1) (zip after.now before.now)) }
{
    let rows = after.iter().zip(before.iter());
    let votes = rows.map(|(after, before)| after.saturating_sub(*before));
    votes.fold(0, |most, votes| most.max(votes))
}

impl Loss for Votes {
    ghost table = { λ x. table_of differs 1 (votes_readings x) };

    ghost sound = { λ x. votes_sound x };

    fn length(&self) -> u16 {
        self.held.length()
    }

    fn ceiling(&self) -> u64 {
        1
    }

    // Inlined: a search's inner loop is twice as slow around a call.
    #[inline(always)]
    fn stretch(&self, a: u16, b: u16) -> Result<u64, Fault> {
        if !self.held.has_stretch(a, b) {
            return Err(Fault::BadStretch);
        }
        let before = &self.counts[usize::from(a)];
        let after = &self.counts[usize::from(b)];
        let most = most_votes(before, after);
        Ok(u64::from(b - a - most))
    }
}
