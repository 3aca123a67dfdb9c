// Bytes as text in hexadecimal.
ghost use Rattle.std.specs.Prelude.{◌≡◌, ◌<◌};
ghost use Rattle.hexadecimal.specs.Digits.{digit_for, text_of};
ghost use Rattle.hexadecimal.specs.Text.{Appends};

use std::alloc::AllocError;

fn digit_for(value: u8) -> u8
    requires { value < 16 }
    ensures { result ≡ digit_for value }
{
    if value < 10 {
        value + b'0'
    } else {
        value - 10 + b'A'
    }
}

// Appends the digits of the bytes. Where memory is wanting, nothing is appended.
pub fn put_text(out: &mut Vec<u8>, bytes: &[u8]) -> Result<(), AllocError>
    ensures { Appends (text_of bytes.now) out.old.items out.new.items result }
{
    out.reserve(2 * bytes.len())?;
    for b in bytes {
        out.push_reserved(digit_for(*b / 16));
        out.push_reserved(digit_for(*b % 16));
    }
    Ok(())
}
