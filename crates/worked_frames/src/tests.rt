// The frames of the session as they are read, lines that are refused, and the replies as they are printed.
use division::mark::Mark;
use envelope::Step;
use fault::Fault;
use frames::frame::{Frame, from_line};
use frames::reading::{next_pair, next_reading};
use frames::size::ReadingSize;
use hexadecimal::line::MOST_BYTES;
use replies::{Reply, put_refusal, put_reply};
use std::alloc::Global;
use std::process::Abort;
use std::test::Fail;

// The bytes of the readings that a line brings.
fn readings<'a>(
    size: ReadingSize,
    line: &[u8],
    buffer: &'a mut [u8; MOST_BYTES],
) -> Option<&'a [u8]> {
    match from_line(size, line, buffer) {
        Ok(Frame::Readings(bytes)) => Some(bytes),
        _ => None,
    }
}

// Is this what the line asks?
fn asks(rt: &impl Abort, line: &[u8], frame: Frame<'_>) {
    assert_eq!(rt;
        from_line(ReadingSize::Two, line, &mut [0; MOST_BYTES]),
        Ok(frame)
    );
}

fn refusal_of(size: ReadingSize, line: &[u8]) -> Option<Fault> {
    from_line(size, line, &mut [0; MOST_BYTES]).err()
}

fn is_printed(rt: &impl Abort, heap: Global, reply: &Reply<'_>, text: &[u8]) -> Result<(), Fail> {
    let mut out = Vec::new(heap);
    put_reply(&mut out, reply)?;
    assert!(rt; out.as_slice() == text);
    Ok(())
}

#[test]
fn readings_are_read(rt: HostRuntime) -> Result<(), Fail> {
    let mut buffer: [u8; MOST_BYTES] = [0; MOST_BYTES];
    let line = b"10000300030008000900040004";
    let bytes = readings(ReadingSize::Two, line, &mut buffer).ok_or("no readings")?;
    assert_eq!(rt; bytes, [0, 3, 0, 3, 0, 8, 0, 9, 0, 4, 0, 4].as_slice());
    let (first, _) = next_reading(bytes).ok_or("no first")?;
    assert_eq!(rt; first, 3);
    Ok(())
}

#[test]
fn negative_readings_are_read(rt: HostRuntime) -> Result<(), Fail> {
    let bytes: [u8; 4] = [128, 0, 255, 255];
    let (lowest, rest) = next_reading(&bytes).ok_or("no lowest")?;
    assert_eq!(rt; lowest, -32768);
    let (second, _) = next_reading(rest).ok_or("no second")?;
    assert_eq!(rt; second, -1);
    Ok(())
}

#[test]
fn pairs_are_read(rt: HostRuntime) -> Result<(), Fail> {
    let mut buffer: [u8; MOST_BYTES] = [0; MOST_BYTES];
    let bytes = readings(ReadingSize::Three, b"10FFFE0F00030A", &mut buffer).ok_or("no readings")?;
    let (first, rest) = next_pair(bytes).ok_or("no first")?;
    assert_eq!(rt; first.port, -2);
    assert_eq!(rt; first.code, 15);
    assert_eq!(rt; rest.len(), 3);
    assert_eq!(rt; refusal_of(ReadingSize::Two, b"10FFFE0F00030A"), None);
    assert_eq!(rt;
        refusal_of(ReadingSize::Three, b"10FFFE0F0003"),
        Some(Fault::UnknownFrame)
    );
    Ok(())
}

#[test]
fn frames_are_read(rt: HostRuntime) {
    asks(&rt, b"11", Frame::Open);
    asks(&rt, b"32", Frame::Path);
    asks(&rt, b"40", Frame::Reopen);
    let mark = Mark {
        first: 1,
        last: 3,
        boundaries: 1,
    };
    asks(&rt, b"200001000301", Frame::Mark(mark));
    asks(&rt, b"210001", Frame::Unmark(1));
    asks(&rt, b"220102", Frame::Shortest(258));
    asks(&rt, b"300000000000000014", Frame::CutByPenalty(20));
    asks(&rt, b"310003", Frame::CutByCount(3));
}

#[test]
fn malformed_lines_are_refused(rt: HostRuntime) {
    let malformed = Some(Fault::MalformedLine);
    assert_eq!(rt; refusal_of(ReadingSize::Two, b""), malformed);
    assert_eq!(rt; refusal_of(ReadingSize::Two, b"110"), malformed);
    assert_eq!(rt; refusal_of(ReadingSize::Two, b"10000a"), malformed);
    assert_eq!(rt; refusal_of(ReadingSize::Two, b"11\r"), malformed);
    assert_eq!(rt; refusal_of(ReadingSize::Two, &[b'0'; 132]), malformed);
    assert_eq!(rt;
        refusal_of(ReadingSize::Two, &[b'0'; 130]),
        Some(Fault::UnknownFrame)
    );
}

#[test]
fn unknown_frames_are_refused(rt: HostRuntime) {
    let unknown = Some(Fault::UnknownFrame);
    assert_eq!(rt; refusal_of(ReadingSize::Two, b"33"), unknown);
    assert_eq!(rt; refusal_of(ReadingSize::Two, b"10"), unknown);
    assert_eq!(rt; refusal_of(ReadingSize::Two, b"100003FF"), unknown);
    assert_eq!(rt; refusal_of(ReadingSize::Two, b"1100"), unknown);
    assert_eq!(rt; refusal_of(ReadingSize::Two, b"2000010003"), unknown);
    assert_eq!(rt; refusal_of(ReadingSize::Two, b"3000000014"), unknown);
}

#[test]
fn replies_are_printed(rt: HostRuntime) -> Result<(), Fail> {
    let heap = rt.alloc();
    is_printed(&rt, heap, &Reply::Readings(6), b"100006")?;
    is_printed(&rt, heap, &Reply::Open(6), b"110006")?;
    is_printed(&rt, heap, &Reply::Mark(1), b"200001")?;
    is_printed(&rt, heap, &Reply::Unmark(0), b"210000")?;
    is_printed(&rt, heap, &Reply::Shortest(258), b"220102")?;
    is_printed(&rt, heap, &Reply::Reopen, b"40")
}

#[test]
fn refusals_are_printed(rt: HostRuntime) -> Result<(), Fail> {
    let mut out = Vec::new(rt.alloc());
    put_refusal(&mut out, Fault::WrongState, 5)?;
    assert!(rt; out.as_slice() == b"EE1D0005".as_slice());
    Ok(())
}

#[test]
fn cuts_and_paths_are_printed(rt: HostRuntime) -> Result<(), Fail> {
    let heap = rt.alloc();
    let cut = Reply::CutByPenalty {
        total: 41,
        boundaries: &[2],
    };
    is_printed(&rt, heap, &cut, b"30000000000000002900010002")?;
    let steps = [
        Step {
            penalty: 0,
            count: 3,
            loss: 0,
        },
        Step {
            penalty: 1,
            count: 2,
            loss: 1,
        },
        Step {
            penalty: 17,
            count: 0,
            loss: 35,
        },
    ];
    is_printed(
        &rt,
        heap,
        &Reply::Path(&steps),
        b"320003000000000000000000030000000000000000000000000000000100020000000000000001000000000000001100000000000000000023",
    )
}
