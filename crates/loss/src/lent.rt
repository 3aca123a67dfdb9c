// A loss that is lent is a loss, with the same answers.
ghost use Rattle.std.specs.Prelude.{◌≡◌};

use crate::model::Loss;
use fault::Fault;

impl<L: Loss> Loss for &L {
    ghost table = { λ x. L.Loss.table x.now };

    ghost sound = { λ x. L.Loss.sound x.now };

    fn length(&self) -> u16 {
        (**self).length()
    }

    fn ceiling(&self) -> u64 {
        (**self).ceiling()
    }

    fn stretch(&self, a: u16, b: u16) -> Result<u64, Fault> {
        (**self).stretch(a, b)
    }
}
