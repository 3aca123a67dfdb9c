// Marks that meet, marks that share a gap, a full table, and a mark lifted from the middle.
use crate::samples::mark;
use fault::Fault;
use marks::lent::{lay_in, lift_in};
use marks::table::MarkTable;
use std::test::Fail;

#[test]
fn marks_may_meet_at_a_reading(rt: HostRuntime) {
    let mut table = MarkTable::new();
    assert_eq!(rt; lay_in(&mut table, 9, mark(3, 5, 0)), Ok(1));
    assert_eq!(rt; lay_in(&mut table, 9, mark(1, 3, 1)), Ok(2));
    assert_eq!(rt; lay_in(&mut table, 9, mark(2, 4, 0)), Err(Fault::SharedGap));
    assert_eq!(rt; lay_in(&mut table, 9, mark(5, 10, 0)), Err(Fault::BadMark));
    assert_eq!(rt; lay_in(&mut table, 9, mark(5, 9, 2)), Err(Fault::BadMark));
    assert_eq!(rt; table.get(0), Some(mark(1, 3, 1)));
    assert_eq!(rt; table.get(1), Some(mark(3, 5, 0)));
    assert_eq!(rt; table.get(2), None);
}

#[test]
fn a_shared_gap_goes_before_a_full_table(rt: HostRuntime) -> Result<(), Fail> {
    let mut table = MarkTable::new();
    for i in 1..65 {
        lay_in(&mut table, 512, mark(i, i + 1, 1))?;
    }
    assert_eq!(rt; table.count(), 64);
    assert_eq!(rt;
        lay_in(&mut table, 512, mark(65, 66, 1)),
        Err(Fault::TooManyMarks)
    );
    assert_eq!(rt;
        lay_in(&mut table, 512, mark(64, 66, 1)),
        Err(Fault::SharedGap)
    );
    assert_eq!(rt; table.as_slice().len(), 64);
    Ok(())
}

#[test]
fn a_mark_is_lifted_by_its_first_reading(rt: HostRuntime) -> Result<(), Fail> {
    let mut table = MarkTable::new();
    lay_in(&mut table, 9, mark(1, 3, 1))?;
    lay_in(&mut table, 9, mark(3, 5, 0))?;
    lay_in(&mut table, 9, mark(6, 9, 1))?;
    assert_eq!(rt; lift_in(&mut table, 5), Err(Fault::NoSuchMark));
    assert_eq!(rt; lift_in(&mut table, 3), Ok(2));
    assert_eq!(rt; table.get(1), Some(mark(6, 9, 1)));
    assert_eq!(rt; lay_in(&mut table, 9, mark(3, 6, 1)), Ok(3));
    Ok(())
}
