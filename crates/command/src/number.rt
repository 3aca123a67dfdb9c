// The numbers that words write.
ghost use Rattle.std.specs.Prelude.{◌≡◌, ℕ, ◌-◌, List, if◌then◌else◌, Some, None, Option};
ghost use Rattle.command.specs.Numbers.{is_digit, natural, reading};

// The value of a decimal digit.
fn digit(b: u8) -> Option<u8>
    ensures { result ≡ (if is_digit b then Some (b - 48) else None) }
{
    match b {
        b'0'..=b'9' => Some(b - b'0'),
        _ => None,
    }
}

// The number that decimal digits write, or the largest of the type where it is larger.
pub fn natural(word: &[u8]) -> Option<u64>
    ensures { result ≡ natural 64 word.now }
{
    if word.is_empty() {
        return None;
    }
    // A loop: in a `try_fold` the early end at a byte that is no digit would hide in the closure.
    let mut n: u64 = 0;
    for b in word {
        n = n.saturating_mul(10).saturating_add(u64::from(digit(*b)?));
    }
    Some(n)
}

// A number of a command, written in one word.
pub trait Field: Sized {
    ghost means: { List ℕ → Option Self };

    fn from_word(word: &[u8]) -> Option<Self>
        ensures { result ≡ means word.now };
}

// An impl for each width: no bound of std gives a type's largest number, so one impl for all would need a trait of constants first.
impl Field for u64 {
    ghost means = { natural 64 };

    fn from_word(word: &[u8]) -> Option<u64> {
        natural(word)
    }
}

impl Field for u16 {
    ghost means = { natural 16 };

    fn from_word(word: &[u8]) -> Option<u16> {
        Some(u16::try_from(natural(word)?).unwrap_or(u16::MAX))
    }
}

impl Field for u8 {
    ghost means = { natural 8 };

    fn from_word(word: &[u8]) -> Option<u8> {
        Some(u8::try_from(natural(word)?).unwrap_or(u8::MAX))
    }
}

// Digits, or '-' and digits.
impl Field for i32 {
    ghost means = { reading };

    fn from_word(word: &[u8]) -> Option<i32> {
        match word {
            // `as`, since `min` has made it fit
            [b'-', digits @ ..] => Some(-(natural(digits)?.min(1 << 31) as i64) as i32),
            _ => Some(i32::try_from(natural(word)?).unwrap_or(i32::MAX)),
        }
    }
}
