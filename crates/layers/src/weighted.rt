// A loss multiplied by a weight.
ghost use Rattle.std.specs.Prelude.{◌≡◌};
ghost use Rattle.layers.specs.Layers.{weighted as weighted-table};
ghost use Rattle.layers.specs.Kept.{weighted_sound};

use fault::Fault;
use loss::model::{HEAVIEST, Loss};

#[derive(Drop)]
pub struct Weighted<L> {
    pub weight: u16,
    pub below: L,
}

impl<L: Loss> Loss for Weighted<L> {
    ghost table = { λ x. weighted-table x.weight (L.Loss.table x.below) };

    ghost sound = { λ x. weighted_sound x.weight (L.Loss.table x.below) (L.Loss.sound x.below) };

    fn length(&self) -> u16 {
        self.below.length()
    }

    fn ceiling(&self) -> u64 {
        let below = self.below.ceiling();
        // Too heavy below is too heavy at any weight, at 0 too.
        if below > HEAVIEST {
            return HEAVIEST + 1;
        }
        let weighted = u64::from(self.weight) * below;
        weighted.min(HEAVIEST + 1)
    }

    // Inlined: a search's inner loop is twice as slow around a call.
    #[inline(always)]
    fn stretch(&self, a: u16, b: u16) -> Result<u64, Fault> {
        if self.ceiling() > HEAVIEST {
            return Err(Fault::TooHeavy);
        }
        let loss = self.below.stretch(a, b)?;
        Ok(u64::from(self.weight) * loss)
    }
}
