// Two losses over the same stretch, added: a port side and a starboard side, as long as the shorter of the two.
ghost use Rattle.std.specs.Prelude.{◌≡◌};
ghost use Rattle.layers.specs.Layers.{paired};
ghost use Rattle.layers.specs.Kept.{paired_sound};

use fault::Fault;
use loss::model::{HEAVIEST, Loss};

#[derive(Drop)]
pub struct Pair<P, S> {
    pub port: P,
    pub starboard: S,
}

impl<P: Loss, S: Loss> Loss for Pair<P, S> {
    ghost table = { λ x. paired (P.Loss.table x.port) (S.Loss.table x.starboard) };

    ghost sound = { λ x. paired_sound (P.Loss.table x.port) (S.Loss.table x.starboard) (P.Loss.sound x.port) (S.Loss.sound x.starboard) };

    fn length(&self) -> u16 {
        self.port.length().min(self.starboard.length())
    }

    fn ceiling(&self) -> u64 {
        let both = self.port.ceiling() + self.starboard.ceiling();
        both.min(HEAVIEST + 1)
    }

    // Inlined: a search's inner loop is twice as slow around a call.
    #[inline(always)]
    fn stretch(&self, a: u16, b: u16) -> Result<u64, Fault> {
        if self.ceiling() > HEAVIEST {
            return Err(Fault::TooHeavy);
        }
        Ok(self.port.stretch(a, b)? + self.starboard.stretch(a, b)?)
    }
}
