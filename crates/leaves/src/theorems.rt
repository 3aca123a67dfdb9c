// What makes the loss of a stretch the right number.
ghost use Rattle.std.specs.Prelude.{◌≡◌, IfOk};
ghost use Rattle.loss.specs.Table.{answer};
ghost use Rattle.leaves.specs.Readings.{Least, least_from, stretch_of};
ghost use Rattle.leaves.specs.Theorems.{LeastOfAll, LeastIsOne, LeastBetween, ReachedBetween, PricesRise};

use crate::model::Leaf;
use fault::Fault;
use loss::model::Loss;

// Some whole level costs the loss and none costs less, no other number is so, and levels outside the readings' range can be left out.
pub fn least_stands()
    ensures { (LeastOfAll) × ((LeastIsOne) × ((LeastBetween) × ((ReachedBetween) × (PricesRise)))) }
{}

// The loss of a stretch. An answer is the least over all whole levels, and over the levels that a reading may have.
pub fn least_over_levels<L: Leaf>(leaf: &L, a: u16, b: u16) -> Result<u64, Fault>
    ensures asked { result ≡ answer (L.Loss.table leaf.now) a b }
    ensures least { IfOk result (λ c. Least L.Leaf.price (stretch_of (L.Leaf.readings leaf.now) a b) c) }
    ensures between { IfOk result (λ c. c ≡ least_from L.Leaf.price (stretch_of (L.Leaf.readings leaf.now) a b) L.Leaf.lo L.Leaf.span) }
{
    leaf.stretch(a, b)
}
