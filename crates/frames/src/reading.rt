// Readings in bytes: two's complement, the high byte first.
ghost use Rattle.std.specs.Prelude.{◌≡◌, ◌+◌, [], ◌∷◌, length, MatchOption};
ghost use Rattle.frames.specs.Readings.{reading_of, readings_in, pairs_in};

// A reading of three bytes.
#[derive(Clone, Copy, PartialEq, Eq, Debug)]
pub struct PairReading {
    pub port: i16,
    pub code: u8,
}

// The reading of two bytes.
pub fn reading(high: u8, low: u8) -> i16
    ensures { result ≡ reading_of high low }
{
    i16::from_be_bytes([high, low])
}

// No trait for readings of two and of three bytes: its two impls and its law would be longer than these two functions.
// The first reading of two bytes, and the bytes behind it.
pub fn next_reading(bytes: &[u8]) -> Option<(i16, &[u8])>
    ensures { MatchOption result (readings_in bytes.now ≡ []) (λ p. (readings_in bytes.now ≡ p.0 ∷ readings_in p.1.now) × (2 + length p.1.now ≡ length bytes.now)) }
{
    match bytes {
        [high, low, rest @ ..] => Some((reading(*high, *low), rest)),
        _ => None,
    }
}

// The first reading of three bytes, and the bytes behind it.
pub fn next_pair(bytes: &[u8]) -> Option<(PairReading, &[u8])>
    ensures { MatchOption result (pairs_in bytes.now ≡ []) (λ p. (pairs_in bytes.now ≡ p.0 ∷ pairs_in p.1.now) × (3 + length p.1.now ≡ length bytes.now)) }
{
    match bytes {
        [high, low, code, rest @ ..] => Some((
            PairReading {
                port: reading(*high, *low),
                code: *code,
            },
            rest,
        )),
        _ => None,
    }
}
