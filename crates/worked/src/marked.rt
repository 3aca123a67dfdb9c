// Cuts under many marks: two that meet at a reading, and a full table.
use crate::samples::{LINE, gathered, line_of_equals, mark};
use constraints::Constraints;
use cuts::criterion::Criterion;
use cuts::cuts::cut;
use fault::Fault;
use leaves::squares::Squares;
use list::List;
use marks::lent::lay_in;
use marks::table::MarkTable;
use std::test::Fail;

fn cut_at(
    loss: &Squares,
    n: u16,
    marks: &MarkTable,
    penalty: u64,
    places: &mut [u16],
) -> Result<u64, Fault> {
    let constraints = Constraints {
        n,
        shortest: 1,
        marks,
    };
    let mut numbers: [u64; 1539] = [0; 1539];
    let mut trace: [u16; 513] = [0; 513];
    let mut list = List::over(places);
    cut(
        loss,
        &constraints,
        Criterion::Penalty(penalty),
        &mut numbers,
        &mut trace,
        &mut list,
    )
}

// On 3, 3, 8, 9, 4, 4 one of the gaps 1 and 2 is a boundary, none of 3 and 4, and 5 is free. With 2 alone the stretch 8, 9, 4, 4 loses 21
// (level 6), with 2 and 5 the stretch 8, 9, 4 loses 14 (level 7); with 1 in place of 2 they lose 30 and 26. So {2, 5} is best up to a
// penalty of 6, and at 7, where both cost 28, {2}, which has fewer boundaries.
#[test]
fn two_marks_meet(rt: HostRuntime) -> Result<(), Fail> {
    let loss = gathered(Squares::new(), &LINE)?;
    let mut marks = MarkTable::new();
    lay_in(&mut marks, 6, mark(1, 3, 1))?;
    lay_in(&mut marks, 6, mark(3, 5, 0))?;
    let mut places: [u16; 5] = [0; 5];
    assert_eq!(rt; cut_at(&loss, 6, &marks, 6, &mut places), Ok(26));
    assert_eq!(rt; places, [2, 5, 0, 0, 0]);
    assert_eq!(rt; cut_at(&loss, 6, &marks, 7, &mut places), Ok(28));
    // The 5 is left from the cut before: it is past the entries.
    assert_eq!(rt; places, [2, 5, 0, 0, 0]);
    Ok(())
}

// 512 equal readings lose nothing, so that only the marks call for boundaries: a mark on each of the gaps 1 to 64 bars the even ones and
// asks for the odd ones, 1, 3, .. 63, which are 32.
#[test]
fn a_full_table(rt: HostRuntime) -> Result<(), Fail> {
    let loss = line_of_equals(-7)?;
    let mut marks = MarkTable::new();
    for gap in 1..65 {
        lay_in(&mut marks, 512, mark(gap, gap + 1, (gap % 2) as u8))?;
    }
    assert_eq!(rt; marks.count(), 64);
    let mut places: [u16; 511] = [0; 511];
    assert_eq!(rt; cut_at(&loss, 512, &marks, 5, &mut places), Ok(160));
    for (i, place) in places.iter().enumerate() {
        assert_eq!(rt; *place, if i < 32 { 2 * i as u16 + 1 } else { 0 });
    }
    Ok(())
}
