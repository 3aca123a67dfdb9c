// How many readings a line has room for.
ghost use Rattle.std.specs.Prelude.{◌≡◌, ◌+◌, ◌<◌, ◌≤◌, MatchResult};
ghost use Rattle.fault.specs.declared.Fault.TheVariants.{TooManyReadings};

use fault::Fault;
use loss::limits::MOST_READINGS;

// Refused where more than 512 would be held.
pub(crate) fn check_room(held: u16, more: usize) -> Result<(), Fault>
    requires { held ≤ 512 }
    ensures { MatchResult result (λ _. held + more ≤ 512) (λ f. (512 < held + more) × (f ≡ TooManyReadings)) }
{
    if more > usize::from(MOST_READINGS - held) {
        return Err(Fault::TooManyReadings);
    }
    Ok(())
}
