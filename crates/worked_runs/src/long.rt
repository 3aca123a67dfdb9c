// A loss that is longer than any line: 513 readings, of which no stretch loses anything.
ghost use Rattle.worked_runs.specs.Long.{long, long_sound};

use fault::Fault;
use loss::model::Loss;

pub struct Long;

impl Loss for Long {
    ghost table = { λ _. long };

    ghost sound = { λ _. long_sound };

    fn length(&self) -> u16 {
        513
    }

    fn ceiling(&self) -> u64 {
        0
    }

    fn stretch(&self, a: u16, b: u16) -> Result<u64, Fault> {
        if a < b && b <= 513 {
            return Ok(0);
        }
        Err(Fault::BadStretch)
    }
}
