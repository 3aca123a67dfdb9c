// Frames: the first byte is the kind, and numbers stand high byte first.
ghost use Rattle.std.specs.Prelude.{◌≡◌};
ghost use Rattle.frames.specs.Asked.{asked_by, frame_in, line_frame};

use crate::size::ReadingSize;
use division::mark::Mark;
use fault::Fault;
use hexadecimal::line::{MOST_BYTES, read_line};

#[derive(Clone, Copy, PartialEq, Eq, Debug)]
pub enum Frame<'a> {
    // 10: readings, as bytes
    Readings(&'a [u8]),
    // 11
    Open,
    // 20: first reading, last reading, boundaries
    Mark(Mark),
    // 21: first reading
    Unmark(u16),
    // 22: the shortest stretch
    Shortest(u16),
    // 30: penalty
    CutByPenalty(u64),
    // 31: count
    CutByCount(u16),
    // 32
    Path,
    // 40
    Reopen,
}

// What the bytes ask. Refused with 12, where the kind is unknown or the length does not fit it.
pub fn from_bytes(size: ReadingSize, bytes: &[u8]) -> Result<Frame<'_>, Fault>
    ensures { asked_by result ≡ frame_in size bytes.now }
{
    match bytes {
        [0x10, rest @ ..] if size.fits(rest.len()) => Ok(Frame::Readings(rest)),
        [0x11] => Ok(Frame::Open),
        [0x20, f1, f0, l1, l0, boundaries] => Ok(Frame::Mark(Mark {
            first: u16::from_be_bytes([*f1, *f0]),
            last: u16::from_be_bytes([*l1, *l0]),
            boundaries: *boundaries,
        })),
        [0x21, f1, f0] => Ok(Frame::Unmark(u16::from_be_bytes([*f1, *f0]))),
        [0x22, m1, m0] => Ok(Frame::Shortest(u16::from_be_bytes([*m1, *m0]))),
        [0x30, a, b, c, d, e, f, g, h] => Ok(Frame::CutByPenalty(u64::from_be_bytes([
            *a, *b, *c, *d, *e, *f, *g, *h,
        ]))),
        [0x31, k1, k0] => Ok(Frame::CutByCount(u16::from_be_bytes([*k1, *k0]))),
        [0x32] => Ok(Frame::Path),
        [0x40] => Ok(Frame::Reopen),
        _ => Err(Fault::UnknownFrame),
    }
}

// What a line, without its line end, asks; its bytes are read into `buffer`. Refused with 11 for the line, then with 12 for the frame.
pub fn from_line<'a>(
    size: ReadingSize,
    line: &[u8],
    buffer: &'a mut [u8; MOST_BYTES],
) -> Result<Frame<'a>, Fault>
    ensures { asked_by result ≡ line_frame size line.now }
{
    let n = read_line(line, buffer)?;
    from_bytes(size, &buffer[..n])
}
