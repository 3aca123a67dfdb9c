// The rules as tests of a list of gaps.
ghost use Rattle.std.specs.Prelude.{◌≡◌, ◌+◌, ◌==◌, not, reverse, nat_le};
ghost use Rattle.std.specs.List.{find, zip};
ghost use Rattle.division.specs.Division.{division, long_enough};
ghost use Rattle.division.specs.Marks.{allowed, obeys_all};
ghost use Rattle.division.specs.Order.{later};

use crate::mark::Mark;

// Does the stretch from `start` to `end` hold at least m readings?
fn holds(m: u16, start: u16, end: u16) -> bool
    ensures { result ≡ nat_le (start + m) end }
{
    u32::from(start) + u32::from(m) <= u32::from(end)
}

// Has every stretch of the division of n readings at least m of them?
pub fn is_long_enough(m: u16, n: u16, gaps: &[u16]) -> bool
    ensures { result ≡ long_enough m n gaps.now }
{
    let mut start: u16 = 0;
    for gap in gaps {
        if !holds(m, start, *gap) {
            return false;
        }
        start = *gap;
    }
    holds(m, start, n)
}

// Do the gaps rise, and lie within n readings?
pub fn is_division(n: u16, gaps: &[u16]) -> bool
    ensures { result ≡ division n gaps.now }
{
    is_long_enough(1, n, gaps)
}

// Does the division obey every mark?
pub fn obeys_every(marks: &[Mark], gaps: &[u16]) -> bool
    ensures { result ≡ obeys_all gaps.now marks.now }
{
    marks.iter().all(|mark| mark.is_obeyed(gaps))
}

// Is it a division of n readings, long enough and obedient?
pub fn is_allowed(marks: &[Mark], m: u16, n: u16, gaps: &[u16]) -> bool
    ensures { result ≡ allowed marks.now m n gaps.now }
{
    is_division(n, gaps) && is_long_enough(m, n, gaps) && obeys_every(marks, gaps)
}

// What each of two lists of one length has at the last place where they differ.
fn last_difference(d: &[u16], e: &[u16]) -> Option<(u16, u16)>
    ensures { result ≡ find (λ p. not (p.0 == p.1)) (zip (reverse d.now) (reverse e.now)) }
{
    let d_from_behind = d.iter().rev().copied();
    let e_from_behind = e.iter().rev().copied();
    d_from_behind.zip(e_from_behind).find(|(x, y)| x != y)
}

// Of two divisions that cost as much: has d fewer boundaries, or as many and the later one where they last differ?
pub fn is_later(d: &[u16], e: &[u16]) -> bool
    ensures { result ≡ later d.now e.now }
{
    if d.len() != e.len() {
        return d.len() < e.len();
    }
    last_difference(d, e).is_some_and(|(x, y)| x > y)
}
