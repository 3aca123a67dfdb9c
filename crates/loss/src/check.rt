// Which lines may be cut over a loss.
ghost use Rattle.std.specs.Prelude.{◌≡◌};
ghost use Rattle.fault.specs.Refusal.{RefusedFor};
ghost use Rattle.loss.specs.Lines.{line_refusal};

use crate::limits::MOST_READINGS;
use crate::model::{HEAVIEST, Loss};
use fault::Fault;

// Has the line between 1 and 512 readings, and does the loss stand for all of them?
pub fn check_line<L: Loss>(loss: &L, n: u16) -> Result<(), Fault>
    ensures { RefusedFor (line_refusal (L.table loss.now) n) result }
{
    if loss.ceiling() > HEAVIEST {
        return Err(Fault::TooHeavy);
    }
    if n == 0 {
        return Err(Fault::NoReading);
    }
    if n > MOST_READINGS {
        return Err(Fault::TooManyReadings);
    }
    if loss.length() < n {
        return Err(Fault::BadStretch);
    }
    Ok(())
}
