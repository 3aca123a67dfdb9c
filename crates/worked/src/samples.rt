// Losses, marks and steps that several examples begin with.
use division::mark::Mark;
use envelope::Step;
use fault::Fault;
use leaves::gather::gather;
use leaves::model::Leaf;
use leaves::squares::Squares;

pub(crate) const LINE: [i32; 6] = [3, 3, 8, 9, 4, 4];

// `loss` with the readings.
pub(crate) fn gathered<L: Leaf + Drop>(mut loss: L, readings: &[i32]) -> Result<L, Fault> {
    gather(&mut loss, readings)?;
    Ok(loss)
}

// Squares of 512 equal readings.
pub(crate) fn line_of_equals(reading: i32) -> Result<Squares, Fault> {
    let mut loss = Squares::new();
    for _ in 0..512 {
        loss.push(reading)?;
    }
    Ok(loss)
}

pub(crate) fn mark(first: u16, last: u16, boundaries: u8) -> Mark {
    Mark {
        first,
        last,
        boundaries,
    }
}

pub(crate) fn step(penalty: u64, count: u16, loss: u64) -> Step {
    Step {
        penalty,
        count,
        loss,
    }
}
