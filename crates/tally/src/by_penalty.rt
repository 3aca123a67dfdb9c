// The total, a penalty for each boundary included, with the number of boundaries: two numbers to an entry.
ghost use Rattle.std.specs.Prelude.{◌≡◌, ℕ, ◌+◌, ◌-◌, ◌*◌, ◌^◌, ◌≤◌, length, IfSome, ◌≢◌};
ghost use Rattle.tally.specs.Entries.{pair_held, pair_below, pair_added};
ghost use Rattle.std.proofs.Common.{rules, arith};

use crate::model::Tally;

#[derive(Clone, Copy)]
pub struct ByPenalty {
    penalty: u64,
    ghost small: { penalty ≤ 2 ^ 49 },
}

impl ByPenalty {
    pub fn new(penalty: u64) -> ByPenalty
        requires { penalty ≤ 2 ^ 49 }
        ensures { result.penalty ≡ penalty }
    {
        ByPenalty { penalty }
    }
}

// Among equal totals the fewer boundaries are smaller. Every stretch but the first, which starts at 0, brings a boundary.
impl Tally for ByPenalty {
    type Value = (u64, u64);

    ghost zero = { (0, 0) };

    ghost added = { λ m. pair_added m.penalty };

    ghost below = { pair_below };

    ghost fits = { λ t p. (p.0 ≤ 2 ^ 40 * t + 2 ^ 49 * p.1) × (p.1 ≤ t - 1) };

    ghost stride = { 2 };

    ghost held = { pair_held };

    ghost order = { first_of (Prim.search rules, Prim.grind (arith, Self.row.coded.inj)) };

    ghost strict = { first_of (Prim.search rules, Prim.grind (arith, Self.row.coded.inj)) };

    ghost least = { first_of (Prim.search rules, Prim.grind (arith, Self.row.coded.inj)) };

    ghost wider = { first_of (Prim.search rules, Prim.grind (arith, Self.row.coded.inj)) };

    ghost grows = { first_of (Prim.search rules, Prim.grind (arith, Self.row.coded.inj)) };

    fn nothing(&self) -> (u64, u64) {
        (0, 0)
    }

    // Written out: as a comparison of pairs, a cut by penalty took a tenth longer.
    fn less(&self, a: (u64, u64), b: (u64, u64)) -> bool {
        a.0 < b.0 || a.0 == b.0 && a.1 < b.1
    }

    fn add(&self, v: (u64, u64), start: u16, loss: u64) -> (u64, u64) {
        if start == 0 {
            (v.0 + loss, v.1)
        } else {
            (v.0 + loss + self.penalty, v.1 + 1)
        }
    }

    fn load(&self, rows: &[u64], i: usize) -> Option<(u64, u64)> {
        let x = rows[2 * i];
        if x == u64::MAX {
            None
        } else {
            Some((x, rows[2 * i + 1]))
        }
    }

    // The trait's clauses are written again: the check cannot yet give them to this method.
    fn put(&self, rows: &mut [u64], i: usize, v: Option<(u64, u64)>)
        requires { (2 * (i + 1) ≤ length rows.old) × (IfSome v (λ p. (p.0 ≤ 2 ^ 40 * 512 + 2 ^ 49 * p.1) × (p.1 ≤ 512 - 1))) }
        ensures here { pair_held rows.new i ≡ v }
        ensures others { (j : ℕ) → (j ≢ i) → pair_held rows.new j ≡ pair_held rows.old j }
    {
        match v {
            Some((total, count)) => {
                rows[2 * i] = total;
                rows[2 * i + 1] = count;
            }
            None => rows[2 * i] = u64::MAX,
        }
    }
}
