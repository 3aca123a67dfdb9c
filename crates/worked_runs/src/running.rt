// Makes the calls of a run over squares, and holds what it ends in to what was expected.
use envelope::Step;
use leaves::gather::gather;
use leaves::squares::Squares;
use list::List;
use loss::model::Loss;
use marks::table::MarkTable;
use runs::model::{Answer, Call, Lent, Line, Reply};
use runs::replay::{Watch, replay_watched};
use std::process::Abort;
use std::test::Fail;

// As much as there is.
pub(crate) const ALL: Lent = Lent {
    numbers: 64,
    trace: 64,
};

// Counts its looks, those with a reply to every call so far, and those at a line that is cut and has a first boundary.
#[derive(Drop)]
struct Counting {
    looks: usize,
    told: usize,
    cut: usize,
}

impl Watch for Counting {
    fn look<L: Loss>(
        &mut self,
        _loss: &L,
        calls: &[Call],
        replies: &List<Reply>,
        line: &Line,
        boundaries: &List<u16>,
        _steps: &List<Step>,
        _lent: Lent,
    ) {
        self.looks = self.looks.saturating_add(1);
        if replies.len() == calls.len() {
            self.told = self.told.saturating_add(1);
        }
        if let Line::Cut(cut) = line {
            if cut.boundary(boundaries, 1).is_some() {
                self.cut = self.cut.saturating_add(1);
            }
        }
    }
}

// Runs the calls over squares of the readings. `cuts`: how many looks see a line that is cut at a boundary.
pub(crate) fn run(
    rt: &impl Abort,
    readings: &[i32],
    calls: &[Call],
    replies: &[Reply],
    boundaries: &[u16],
    steps: &[Step],
    cuts: usize,
) -> Result<(), Fail> {
    let mut loss = Squares::new();
    gather(&mut loss, readings)?;
    let mut told: [Reply; 16] = [Ok(Answer::Path); 16];
    let mut told = List::over(&mut told);
    let mut gaps: [u16; 5] = [0; 5];
    let mut gaps = List::over(&mut gaps);
    let step = Step {
        penalty: 0,
        count: 0,
        loss: 0,
    };
    let mut path: [Step; 6] = [step; 6];
    let mut path = List::over(&mut path);
    let mut numbers: [u64; 21] = [0; 21];
    let mut trace: [u16; 42] = [0; 42];
    let mut marks = MarkTable::new();
    let mut watcher = Counting {
        looks: 0,
        told: 0,
        cut: 0,
    };
    let _ = replay_watched(
        &mut watcher,
        &loss,
        calls,
        &mut told,
        &mut marks,
        &mut gaps,
        &mut path,
        &mut numbers,
        &mut trace,
    )?;
    assert_eq!(rt; told.as_slice(), replies);
    assert_eq!(rt; gaps.as_slice(), boundaries);
    assert_eq!(rt; path.as_slice(), steps);
    assert_eq!(rt; watcher.looks, calls.len().saturating_add(1));
    assert_eq!(rt; watcher.told, watcher.looks);
    assert_eq!(rt; watcher.cut, cuts);
    Ok(())
}
