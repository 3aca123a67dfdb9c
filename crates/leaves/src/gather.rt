// Many readings at once, for any loss that holds readings.
ghost use Rattle.std.specs.Prelude.{◌≡◌};
ghost use Rattle.leaves.specs.Taking.{all_between, gathered, after_all};

use crate::model::Leaf;
use fault::Fault;
use loss::limits::MOST_READINGS;
use loss::model::Loss;

// Whether each of xs is a reading for the loss.
pub fn accepts_all<L: Leaf>(xs: &[i32]) -> bool
    ensures { result ≡ all_between L.Leaf.lo L.Leaf.span xs.now }
{
    xs.iter().all(|x| L::accepts(*x))
}

// Takes the readings in their order, all of them or none. Refused where one is out of range, then where they would be more than 512.
pub fn gather<L: Leaf>(leaf: &mut L, xs: &[i32]) -> Result<(), Fault>
    ensures result { result ≡ gathered L.Leaf.lo L.Leaf.span (L.Leaf.readings leaf.old) xs.now }
    ensures holds { L.Leaf.readings leaf.new ≡ after_all L.Leaf.lo L.Leaf.span (L.Leaf.readings leaf.old) xs.now }
{
    if !accepts_all::<L>(xs) {
        return Err(Fault::ReadingOutOfRange);
    }
    if usize::from(leaf.length()) + xs.len() > usize::from(MOST_READINGS) {
        return Err(Fault::TooManyReadings);
    }
    for x in xs {
        leaf.push(*x)?;
    }
    Ok(())
}
