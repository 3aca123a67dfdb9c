// Which readings may be taken: those of a loss's levels, and at most 512.
ghost use Rattle.std.specs.Prelude.{◌≡◌};
ghost use Rattle.leaves.specs.Taking.{between, admitted};

use fault::Fault;
use loss::limits::MOST_READINGS;

// The lowest reading of 16 bits, and how far above it the highest is.
pub const LOWEST: i32 = -32768;

pub const SPAN: u16 = 65535;

// Whether x is one of the levels lo to lo + span.
pub fn is_between(lo: i32, span: u16, x: i32) -> bool
    ensures { result ≡ between lo span x }
{
    lo <= x && i64::from(x) <= i64::from(lo) + i64::from(span)
}

// The distance of x from lo, where a loss that holds so many readings may take it.
pub fn admit(lo: i32, span: u16, held: usize, x: i32) -> Result<u16, Fault>
    ensures { result ≡ admitted lo span held x }
{
    if !is_between(lo, span, x) {
        return Err(Fault::ReadingOutOfRange);
    }
    if held >= usize::from(MOST_READINGS) {
        return Err(Fault::TooManyReadings);
    }
    Ok((i64::from(x) - i64::from(lo)) as u16)
}
