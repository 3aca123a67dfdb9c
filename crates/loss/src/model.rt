// A loss: a length, a ceiling, and a whole number for every stretch.
ghost use Rattle.std.specs.Prelude.{◌≡◌};
ghost use Rattle.loss.specs.Table.{Table, Sound, answer};

use fault::Fault;

// The heaviest ceiling. A ceiling above it says that the loss is too heavy.
pub const HEAVIEST: u64 = 1 << 40;

// Whoever brings a further loss says by `table` what it stands for and shows by `sound` that it keeps the rules.
// Stretch (a, b) holds the readings a + 1 to b.
pub trait Loss {
    ghost table: { Self → Table };

    ghost sound: { (x : Self) → Sound (table x) };

    // How many readings the loss stands for.
    fn length(&self) -> u16
        ensures { result ≡ (table self.now).length };

    // No stretch loses more than the ceiling for each of its readings.
    fn ceiling(&self) -> u64
        ensures { result ≡ (table self.now).ceiling };

    // The loss of a stretch. Refused where the loss is too heavy, then where there is no such stretch.
    fn stretch(&self, a: u16, b: u16) -> Result<u64, Fault>
        ensures { result ≡ answer (table self.now) a b };
}
