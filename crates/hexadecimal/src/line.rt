// A line of digits as the bytes that it writes.
ghost use Rattle.std.specs.Prelude.{◌≡◌, ◌≤◌, length, Some, None, MatchOption};
ghost use Rattle.hexadecimal.specs.Digits.{digit_value, bytes_in};
ghost use Rattle.hexadecimal.specs.Line.{line_bytes, how_many, laid_over};

use arrayvec::ArrayVec;
use fault::Fault;

// The most bytes of a line, and the most digits.
pub const MOST_BYTES: usize = 65;

pub const MOST_DIGITS: usize = 130;

// So many bytes at the front of a line decide how it is read: a caller need not keep more (`theorems::front_suffices`); `inputs` keeps as many.
pub const FRONT: usize = 131;

// The value of a digit.
fn digit(c: u8) -> Option<u8>
    ensures { result ≡ digit_value c }
{
    match c {
        b'0'..=b'9' => Some(c - b'0'),
        b'A'..=b'F' => Some(c - b'A' + 10),
        _ => None,
    }
}

// The bytes that the digits write.
fn read_digits(digits: &[u8]) -> Option<ArrayVec<u8, MOST_BYTES>>
    requires { length digits.now ≤ 130 }
    ensures { MatchOption result (bytes_in digits.now ≡ None) (λ bytes. bytes_in digits.now ≡ Some bytes.items) }
{
    let mut bytes = ArrayVec::new();
    let mut left = digits;
    while let [a, b, rest @ ..] = left {
        let high = digit(*a)?;
        let low = digit(*b)?;
        bytes.push(high * 16 + low);
        left = rest;
    }
    if left.is_empty() { Some(bytes) } else { None }
}

// Reads a line, without its line end, into `bytes`, and says how many bytes it has. Refused with 11, where it is empty, has an odd
// number of digits, another character or more than 130 of them; `bytes` is then as it was.
// Into the caller's array, which the frame then borrows.
pub fn read_line(line: &[u8], bytes: &mut [u8; MOST_BYTES]) -> Result<usize, Fault>
    ensures value { result ≡ how_many (line_bytes line.now) }
    ensures after { bytes.new ≡ laid_over (line_bytes line.now) bytes.old }
{
    if line.is_empty() || line.len() > MOST_DIGITS {
        return Err(Fault::MalformedLine);
    }
    let read = read_digits(line).ok_or(Fault::MalformedLine)?;
    let n = read.len();
    bytes[..n].copy_from_slice(read.as_slice());
    Ok(n)
}
