// A loss whose readings come in frames.
ghost use Rattle.std.specs.Prelude.{◌≡◌, ◌^◌, ◌≤◌, length};
ghost use Rattle.loss.specs.Table.{Table};
ghost use Rattle.frames.specs.declared.size.ReadingSize.{ReadingSize as Size};
ghost use Rattle.kinds.specs.Sides.{Sides, no_readings, brought, taken, after};

use fault::Fault;
use frames::size::ReadingSize;
use loss::model::Loss;

// Whoever brings a further kind of readings says by `held` which it holds and by `weighed` what they stand for.
pub trait FrameReadings: Loss {
    // The readings held.
    ghost held: { Self → Sides };

    // The loss that readings are.
    ghost weighed: { Sides → Table };

    // How many bytes a reading has in a frame.
    ghost bytes: { Size };

    // No readings.
    fn empty() -> Self
        ensures { held result ≡ no_readings };

    fn size() -> ReadingSize
        ensures { result ≡ bytes };

    // Takes the readings of a frame behind the others, all or none, and answers how many are then held.
    // Refused where a code is out of range, then where more than 512 would be held: then nothing changes.
    // Each kind writes its own loop: a shared one would take a type, two methods and three laws more, for four lines.
    fn take(&mut self, readings: &[u8]) -> Result<u16, Fault>
        ensures result { result ≡ taken (held self.old) (brought bytes readings.now) }
        ensures holds { held self.new ≡ after (held self.old) (brought bytes readings.now) };

    // What the loss stands for is decided by its readings alone.
    ghost tied: { (x : Self) → Self.Loss.table x ≡ weighed (held x) };

    // It is as long as it holds readings.
    ghost counted: { (x : Self) → (Self.Loss.table x).length ≡ length (held x).port };

    ghost few: { (x : Self) → length (held x).port ≤ 512 };

    // It is never too heavy.
    ghost light: { (x : Self) → (Self.Loss.table x).ceiling ≤ 2 ^ 40 };
}
