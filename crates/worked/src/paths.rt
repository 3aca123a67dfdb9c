// Paths of lines of 512 readings by squares.
use crate::samples::{line_of_equals, step};
use constraints::Constraints;
use envelope::Step;
use leaves::model::Leaf;
use leaves::squares::Squares;
use list::List;
use marks::table::MarkTable;
use path::path::path;
use std::process::Abort;
use std::test::Fail;

// The path of the 512 readings, with no mark, has these steps.
fn has_steps(rt: &impl Abort, loss: &Squares, steps: &[Step]) {
    let constraints = Constraints {
        n: 512,
        shortest: 1,
        marks: &MarkTable::new(),
    };
    let mut numbers: [u64; 1539] = [0; 1539];
    let mut places = [step(0, 0, 0); 512];
    let mut list = List::over(&mut places);
    assert_eq!(rt; path(loss, &constraints, &mut numbers, &mut list), Ok(()));
    assert_eq!(rt; list.as_slice(), steps);
}

// Equal readings lose nothing however they are divided, so that no boundary is best at every penalty.
#[test]
fn equal_readings(rt: HostRuntime) -> Result<(), Fail> {
    has_steps(&rt, &line_of_equals(1000)?, &[step(0, 0, 0)]);
    Ok(())
}

// 0, 2, 0, 2, ..: a stretch of one reading loses nothing, and one of m readings loses m, at the level 1. With k boundaries at most k of the
// k + 1 stretches have one reading, unless all have: so k boundaries lose 512 - k, and 511 of them nothing. At the penalties 0 and 1, k
// boundaries cost 512 - k and 512, and 511 of them 0 and 511. From 2 on no boundary is best: it costs 512, k of them 512 + k or more, and
// 511 of them 1022 or more.
#[test]
fn alternating_readings(rt: HostRuntime) -> Result<(), Fail> {
    let mut loss = Squares::new();
    for _ in 0..256 {
        loss.push(0)?;
        loss.push(2)?;
    }
    has_steps(&rt, &loss, &[step(0, 511, 0), step(2, 0, 512)]);
    Ok(())
}
