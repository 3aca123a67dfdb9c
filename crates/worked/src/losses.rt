// What the three losses take and answer on short lines of readings.
use crate::samples::{LINE, gathered};
use fault::Fault;
use leaves::distances::Distances;
use leaves::gather::gather;
use leaves::model::Leaf;
use leaves::squares::Squares;
use leaves::votes::Votes;
use loss::model::Loss;
use std::test::Fail;

#[test]
fn by_squares(rt: HostRuntime) -> Result<(), Fail> {
    let loss = gathered(Squares::new(), &LINE)?;
    assert_eq!(rt; loss.stretch(0, 6), Ok(35));
    assert_eq!(rt; loss.stretch(1, 3), Ok(13));
    assert_eq!(rt; loss.stretch(2, 4), Ok(1));
    assert_eq!(rt; loss.stretch(2, 2), Err(Fault::BadStretch));
    assert_eq!(rt; loss.stretch(0, 7), Err(Fault::BadStretch));
    let below = gathered(Squares::new(), &[-3, -4, -4])?;
    assert_eq!(rt; below.stretch(0, 3), Ok(1));
    Ok(())
}

#[test]
fn by_distances(rt: HostRuntime) -> Result<(), Fail> {
    let loss = gathered(Distances::new(), &LINE)?;
    assert_eq!(rt; loss.stretch(0, 6), Ok(11));
    let mut ends = gathered(Distances::new(), &[-32768, 32767])?;
    assert_eq!(rt; ends.stretch(0, 2), Ok(65535));
    assert_eq!(rt; ends.push(32768), Err(Fault::ReadingOutOfRange));
    assert_eq!(rt; ends.push(-32769), Err(Fault::ReadingOutOfRange));
    Ok(())
}

#[test]
fn by_votes(rt: HostRuntime) -> Result<(), Fail> {
    let mut loss = Votes::new();
    assert_eq!(rt;
        gather(&mut loss, &[3, 16, 4]),
        Err(Fault::ReadingOutOfRange)
    );
    assert_eq!(rt; loss.length(), 0);
    gather(&mut loss, &LINE)?;
    assert_eq!(rt; loss.stretch(0, 6), Ok(4));
    for _ in 6..512 {
        loss.push(15)?;
    }
    assert_eq!(rt; loss.push(16), Err(Fault::ReadingOutOfRange));
    assert_eq!(rt; loss.push(15), Err(Fault::TooManyReadings));
    assert_eq!(rt; loss.length(), 512);
    assert_eq!(rt; loss.stretch(0, 512), Ok(6));
    Ok(())
}
