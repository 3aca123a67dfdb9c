// Layers over losses of readings.
use crate::samples::{LINE, gathered};
use fault::Fault;
use layers::pair::Pair;
use layers::weighted::Weighted;
use leaves::gather::gather;
use leaves::squares::Squares;
use leaves::votes::Votes;
use loss::model::{HEAVIEST, Loss};
use std::test::Fail;

#[test]
fn squares_and_votes_weighted(rt: HostRuntime) -> Result<(), Fail> {
    let port = gathered(Squares::new(), &LINE)?;
    let mut codes = gathered(Votes::new(), &LINE)?;
    gather(&mut codes, &[15, 15])?;
    let starboard = Weighted {
        weight: 100,
        below: &codes,
    };
    let pair = Pair { port, starboard };
    assert_eq!(rt; pair.length(), 6);
    assert_eq!(rt; pair.ceiling(), (1 << 32) + 100);
    assert_eq!(rt; pair.stretch(0, 6), Ok(435));
    assert_eq!(rt; pair.stretch(2, 4), Ok(101));
    assert_eq!(rt; pair.stretch(0, 7), Err(Fault::BadStretch));
    Ok(())
}

#[test]
fn weights_at_the_limit(rt: HostRuntime) -> Result<(), Fail> {
    let squares = gathered(Squares::new(), &LINE)?;
    let heaviest = Weighted {
        weight: 256,
        below: &squares,
    };
    assert_eq!(rt; heaviest.ceiling(), HEAVIEST);
    assert_eq!(rt; heaviest.stretch(0, 6), Ok(256 * 35));
    let heavier = Weighted {
        weight: 257,
        below: &squares,
    };
    assert_eq!(rt; heavier.ceiling(), HEAVIEST + 1);
    assert_eq!(rt; heavier.stretch(9, 3), Err(Fault::TooHeavy));
    let none = Weighted {
        weight: 0,
        below: heavier,
    };
    assert_eq!(rt; none.ceiling(), HEAVIEST + 1);
    assert_eq!(rt; none.stretch(0, 6), Err(Fault::TooHeavy));
    Ok(())
}
