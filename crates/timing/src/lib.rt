// The jobs of the benchmark, which the crate timing_c offers to C. Each job is run `times` times over lent readings, and gives a
// digest of what it found.
#![tactic(auto)]

use constraints::Constraints;
use cuts::criterion::Criterion;
use cuts::cuts::cut;
use envelope::Step;
use layers::pair::Pair;
use layers::weighted::Weighted;
use leaves::model::Leaf;
use leaves::squares::Squares;
use leaves::votes::Votes;
use list::List;
use loss::model::Loss;
use marks::table::MarkTable;
use path::path::path;

type Port = Squares;

type Starboard = Weighted<Votes>;

// Readings of two bytes each.
fn squares_of(readings: &[u8]) -> Squares {
    let mut loss = Squares::new();
    for reading in readings.as_chunks::<2>().0 {
        let _ = loss.push(i32::from(i16::from_be_bytes(*reading)));
    }
    loss
}

// Readings of three bytes each: port, then the class of starboard.
fn pair_of(readings: &[u8]) -> Pair<Port, Starboard> {
    let mut port = Squares::new();
    let mut below = Votes::new();
    for [high, low, code] in readings.as_chunks::<3>().0 {
        let _ = port.push(i32::from(i16::from_be_bytes([*high, *low])));
        let _ = below.push(i32::from(*code));
    }
    Pair {
        port,
        starboard: Weighted { weight: 100, below },
    }
}

fn digest(total: u64, boundaries: &List<u16>) -> u64 {
    boundaries.as_slice().iter().fold(total, |sum, gap| {
        sum.wrapping_mul(31).wrapping_add(u64::from(*gap))
    })
}

fn digest_of_path(steps: &List<Step>) -> u64 {
    steps.as_slice().iter().fold(0u64, |sum, step| {
        sum.wrapping_mul(31)
            .wrapping_add(step.penalty ^ step.loss)
            .wrapping_add(u64::from(step.count))
    })
}

// Does the job so many times, and adds up what it gives.
fn repeated<F: FnMut() -> u64>(times: u32, mut job: F) -> u64
    requires { F.IsAlwaysCallable job }
{
    let mut sum: u64 = 0;
    for _ in 0..times {
        sum = sum.wrapping_add(job());
    }
    sum
}

fn cut_by<L: Loss>(loss: &L, criterion: Criterion, trace: &mut [u16], times: u32) -> u64 {
    let constraints = Constraints {
        n: loss.length(),
        shortest: 1,
        marks: &MarkTable::new(),
    };
    let mut numbers = [0u64; 1539];
    let mut places = [0u16; 511];
    let mut list = List::over(&mut places);
    repeated(times, || {
        cut(
            loss,
            &constraints,
            criterion,
            &mut numbers,
            trace,
            &mut list,
        )
        .map_or(0, |total| digest(total, &list))
    })
}

fn by_penalty<L: Loss>(loss: &L, penalty: u64, times: u32) -> u64 {
    cut_by(loss, Criterion::Penalty(penalty), &mut [0; 513], times)
}

fn by_count<L: Loss>(loss: &L, count: u16, times: u32) -> u64 {
    cut_by(loss, Criterion::Count(count), &mut [0; 32768], times)
}

fn path_of<L: Loss>(loss: &L, times: u32) -> u64 {
    let constraints = Constraints {
        n: loss.length(),
        shortest: 1,
        marks: &MarkTable::new(),
    };
    let mut numbers = [0u64; 1539];
    let mut places = [Step {
        penalty: 0,
        count: 0,
        loss: 0,
    }; 512];
    let mut list = List::over(&mut places);
    repeated(times, || {
        path(loss, &constraints, &mut numbers, &mut list).map_or(0, |()| digest_of_path(&list))
    })
}

// One function for each loss and each job, since C has no generics.
pub fn squares_by_penalty(readings: &[u8], penalty: u64, times: u32) -> u64 {
    by_penalty(&squares_of(readings), penalty, times)
}

pub fn squares_by_count(readings: &[u8], count: u16, times: u32) -> u64 {
    by_count(&squares_of(readings), count, times)
}

pub fn squares_path(readings: &[u8], times: u32) -> u64 {
    path_of(&squares_of(readings), times)
}

pub fn pair_by_penalty(readings: &[u8], penalty: u64, times: u32) -> u64 {
    by_penalty(&pair_of(readings), penalty, times)
}

pub fn pair_by_count(readings: &[u8], count: u16, times: u32) -> u64 {
    by_count(&pair_of(readings), count, times)
}

pub fn pair_path(readings: &[u8], times: u32) -> u64 {
    path_of(&pair_of(readings), times)
}
