// Lines that cannot be opened, and what is as before then; runs that nobody watches.
use crate::long::Long;
use division::mark::Mark;
use envelope::Step;
use fault::Fault;
use layers::weighted::Weighted;
use leaves::model::Leaf;
use leaves::squares::Squares;
use line::Marking;
use list::List;
use loss::model::Loss;
use marks::lent::lay_in;
use marks::table::MarkTable;
use runs::model::{Answer, Call, Reply};
use runs::unwatched::replay;
use std::process::Abort;
use std::test::Fail;

const STANDING: Mark = Mark {
    first: 2,
    last: 3,
    boundaries: 1,
};

// No line opens over the loss, for this cause, and the marks of an earlier line stay.
fn refused<L: Loss>(rt: &impl Abort, loss: &L, cause: Fault) -> Result<(), Fail> {
    let mut marks = MarkTable::new();
    lay_in(&mut marks, 4, STANDING)?;
    assert_eq!(rt; Marking::open(loss, &mut marks).err(), Some(cause));
    assert_eq!(rt; marks.get(0), Some(STANDING));
    Ok(())
}

#[test]
fn lines_that_cannot_be_opened(rt: HostRuntime) -> Result<(), Fail> {
    let none = Squares::new();
    let heavy = Weighted {
        weight: 257,
        below: &none,
    };
    refused(&rt, &heavy, Fault::TooHeavy)?;
    refused(&rt, &none, Fault::NoReading)?;
    refused(&rt, &Long, Fault::TooManyReadings)
}

// How many calls are replied to, with places for two replies and nothing else lent.
fn unwatched<L: Loss>(loss: &L, calls: &[Call]) -> Result<usize, Fault> {
    let mut told: [Reply; 2] = [Ok(Answer::Path); 2];
    let mut told = List::over(&mut told);
    let mut gaps: [u16; 0] = [];
    let mut gaps = List::over(&mut gaps);
    let mut path: [Step; 0] = [];
    let mut path = List::over(&mut path);
    let mut marks = MarkTable::new();
    let _ = replay(
        loss,
        calls,
        &mut told,
        &mut marks,
        &mut gaps,
        &mut path,
        &mut [],
        &mut [],
    )?;
    Ok(told.len())
}

#[test]
fn runs_that_nobody_watches(rt: HostRuntime) -> Result<(), Fail> {
    let mut one = Squares::new();
    assert_eq!(rt; unwatched(&one, &[]), Err(Fault::NoReading));
    one.push(-7)?;
    assert_eq!(rt; unwatched(&one, &[Call::Reopen, Call::Unmark(1)]), Ok(2));
    assert_eq!(rt;
        unwatched(&one, &[Call::Reopen; 3]),
        Err(Fault::ShortBuffer)
    );
    assert_eq!(rt;
        unwatched(&Long, &[Call::Reopen; 3]),
        Err(Fault::TooManyReadings)
    );
    Ok(())
}
