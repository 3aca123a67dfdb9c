// Cuts of the line 3, 3, 8, 9, 4, 4 by squares, of one reading, of 512, and under marks of a longer line.
use crate::samples::{LINE, gathered, line_of_equals, mark};
use constraints::Constraints;
use cuts::criterion::Criterion;
use cuts::cuts::cut;
use division::mark::Mark;
use fault::Fault;
use leaves::squares::Squares;
use list::List;
use marks::lent::lay_in;
use marks::table::MarkTable;
use std::test::Fail;

fn cut_line(
    constraints: &Constraints<'_>,
    criterion: Criterion,
    trace: &mut [u16],
    places: &mut [u16],
) -> Result<u64, Fault> {
    let loss = gathered(Squares::new(), &LINE)?;
    let mut numbers: [u64; 21] = [0; 21];
    let mut list = List::over(places);
    cut(
        &loss,
        constraints,
        criterion,
        &mut numbers,
        trace,
        &mut list,
    )
}

fn by_penalty(
    marks: &MarkTable,
    shortest: u16,
    penalty: u64,
    places: &mut [u16],
) -> Result<u64, Fault> {
    let constraints = Constraints {
        n: 6,
        shortest,
        marks,
    };
    cut_line(
        &constraints,
        Criterion::Penalty(penalty),
        &mut [0; 7],
        places,
    )
}

fn by_count(n: u16, shortest: u16, count: u16, places: &mut [u16]) -> Result<u64, Fault> {
    let constraints = Constraints {
        n,
        shortest,
        marks: &MarkTable::new(),
    };
    cut_line(&constraints, Criterion::Count(count), &mut [0; 42], places)
}

// The mark alone, on a line of n readings.
fn with_mark(n: u16, mark: Mark) -> Result<MarkTable, Fault> {
    let mut marks = MarkTable::new();
    lay_in(&mut marks, n, mark)?;
    Ok(marks)
}

#[test]
fn penalties(rt: HostRuntime) {
    let none = MarkTable::new();
    let mut places: [u16; 5] = [0; 5];
    for (shortest, penalty, total, gaps) in [
        (1, 17, 35, [0, 0, 0, 0, 0]),
        (1, 16, 33, [2, 4, 0, 0, 0]),
        (1, 1, 3, [2, 4, 0, 0, 0]),
        (1, 0, 0, [2, 3, 4, 0, 0]),
        (3, 0, 34, [3, 3, 4, 0, 0]),
    ] {
        assert_eq!(rt;
            by_penalty(&none, shortest, penalty, &mut places),
            Ok(total)
        );
        assert_eq!(rt; places, gaps);
    }
    assert_eq!(rt;
        by_penalty(&none, 1, (1 << 49) + 1, &mut places),
        Err(Fault::BadPenalty)
    );
}

#[test]
fn marks_hold(rt: HostRuntime) -> Result<(), Fail> {
    let mut places: [u16; 5] = [0; 5];
    assert_eq!(rt;
        by_penalty(&with_mark(6, mark(2, 4, 0))?, 1, 5, &mut places),
        Ok(31)
    );
    assert_eq!(rt; places, [1, 4, 0, 0, 0]);
    assert_eq!(rt;
        by_penalty(&with_mark(6, mark(1, 3, 1))?, 3, 0, &mut places),
        Err(Fault::NoAllowedDivision)
    );
    assert_eq!(rt; places, [1, 4, 0, 0, 0]);
    Ok(())
}

#[test]
fn marks_of_a_longer_line(rt: HostRuntime) -> Result<(), Fail> {
    let mut places: [u16; 5] = [0; 5];
    assert_eq!(rt;
        by_penalty(&with_mark(9, mark(5, 9, 1))?, 1, 17, &mut places),
        Ok(48)
    );
    assert_eq!(rt; places, [2, 5, 0, 0, 0]);
    assert_eq!(rt;
        by_penalty(&with_mark(9, mark(7, 9, 1))?, 1, 0, &mut places),
        Err(Fault::NoAllowedDivision)
    );
    Ok(())
}

#[test]
fn counts(rt: HostRuntime) {
    let mut places: [u16; 5] = [0; 5];
    assert_eq!(rt; by_count(6, 1, 4, &mut places), Ok(0));
    assert_eq!(rt; places, [2, 3, 4, 5, 0]);
    assert_eq!(rt;
        by_count(6, 2, 3, &mut places),
        Err(Fault::NoAllowedDivision)
    );
    assert_eq!(rt; by_count(6, 1, 6, &mut places), Err(Fault::BadCount));
    assert_eq!(rt; by_count(0, 1, 0, &mut places), Err(Fault::BadCount));
    assert_eq!(rt; by_count(7, 1, 6, &mut places), Err(Fault::BadStretch));
    assert_eq!(rt; places, [2, 3, 4, 5, 0]);
    let mut empty: [u16; 0] = [];
    assert_eq!(rt; by_count(1, 1, 0, &mut empty), Ok(0));
    assert_eq!(rt; by_count(2, 1, 0, &mut empty), Err(Fault::ShortBuffer));
}

#[test]
fn equal_readings(rt: HostRuntime) -> Result<(), Fail> {
    let loss = line_of_equals(-7)?;
    let constraints = Constraints {
        n: 512,
        shortest: 1,
        marks: &MarkTable::new(),
    };
    let mut numbers: [u64; 1539] = [0; 1539];
    let mut trace: [u16; 1026] = [0; 1026];
    let mut places: [u16; 511] = [0; 511];
    let mut list = List::over(&mut places);
    assert_eq!(rt;
        cut(
            &loss,
            &constraints,
            Criterion::Count(1),
            &mut numbers,
            &mut trace,
            &mut list
        ),
        Ok(0)
    );
    assert_eq!(rt; list.get(0), Some(511));
    assert_eq!(rt;
        cut(
            &loss,
            &constraints,
            Criterion::Penalty(0),
            &mut numbers,
            &mut trace,
            &mut list
        ),
        Ok(0)
    );
    assert_eq!(rt; list.len(), 0);
    Ok(())
}
