// The loss alone: one number to an entry, the largest where there is none.
ghost use Rattle.std.specs.Prelude.{◌≡◌, ℕ, ◌+◌, ◌*◌, ◌^◌, ◌≤◌, length, IfSome, ◌≢◌, nat_lt};
ghost use Rattle.tally.specs.Entries.{loss_held, loss_added};
ghost use Rattle.std.proofs.Common.{rules};

use crate::model::Tally;

#[derive(Clone, Copy)]
pub struct ByLoss;

impl Tally for ByLoss {
    type Value = u64;

    ghost zero = { 0 };

    ghost added = { loss_added };

    ghost below = { nat_lt };

    ghost fits = { λ t v. v ≤ 2 ^ 40 * t };

    ghost stride = { 1 };

    ghost held = { loss_held };

    ghost order = { Prim.search rules };

    ghost strict = { Prim.search rules };

    ghost least = { Prim.search rules };

    ghost wider = { Prim.search rules };

    ghost grows = { Prim.search rules };

    fn nothing(&self) -> u64 {
        0
    }

    fn less(&self, a: u64, b: u64) -> bool {
        a < b
    }

    fn add(&self, v: u64, start: u16, loss: u64) -> u64 {
        v + loss
    }

    fn load(&self, rows: &[u64], i: usize) -> Option<u64> {
        let x = rows[i];
        if x == u64::MAX { None } else { Some(x) }
    }

    // The trait's clauses are written again: the check cannot yet give them to this method.
    fn put(&self, rows: &mut [u64], i: usize, v: Option<u64>)
        requires { (1 * (i + 1) ≤ length rows.old) × (IfSome v (λ x. x ≤ 2 ^ 40 * 512)) }
        ensures here { loss_held rows.new i ≡ v }
        ensures others { (j : ℕ) → (j ≢ i) → loss_held rows.new j ≡ loss_held rows.old j }
    {
        rows[i] = v.unwrap_or(u64::MAX);
    }
}
