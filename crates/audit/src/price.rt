// Prices a division by any loss.
ghost use Rattle.std.specs.Prelude.{◌≡◌, ◌*◌, ◌^◌, ◌<◌, ◌≤◌, map, IfOk, Ok, Err};
ghost use Rattle.fault.specs.declared.Failure.TheVariants.{OutOfMemory};
ghost use Rattle.fault.specs.Refusal.{RefusedFor, FailedFor};
ghost use Rattle.division.specs.Division.{Division};
ghost use Rattle.audit.specs.Priced.{counted, price_refusal, opening_refusal, Summed, Longer, Told};

use crate::report::{CountedMark, PricedStretch, Report};
use division::check::{is_allowed, is_division, is_long_enough};
use division::mark::Mark;
use fault::{Failure, Fault};
use loss::check::check_line;
use loss::limits::LARGEST_PENALTY;
use loss::model::Loss;
use std::alloc::Global;

// Refuses a loss that no line can be opened over.
pub fn check_opening<L: Loss>(loss: &L) -> Result<(), Fault>
    ensures { RefusedFor (opening_refusal (L.Loss.table loss.now)) result }
{
    check_line(loss, loss.length())
}

// The stretches of a division as far as `end`, with their losses, and the losses added up.
#[derive(Drop)]
struct Sum {
    stretches: Vec<PricedStretch>,
    end: u16,
    loss: u64,
}

impl Sum {
    // The next stretch, which ends at `end`.
    fn add_stretch<L: Loss>(&mut self, loss: &L, end: u16) -> Result<(), Failure>
        requires light { (L.Loss.table loss.now).ceiling ≤ 2 ^ 40 }
        requires rises { self.old.end < end }
        requires within { end ≤ (L.Loss.table loss.now).length }
        requires small { self.old.loss ≤ 2 ^ 40 * self.old.end }
        ensures { elim result [ Ok _ ↦ Longer (L.Loss.table loss.now) self.old self.new end | Err e ↦ e ≡ OutOfMemory ] }
    {
        let start = self.end;
        let lost = loss.stretch(start, end)?;
        self.loss += lost;
        self.end = end;
        self.stretches.push(PricedStretch {
            start,
            end,
            loss: lost,
        })?;
        Ok(())
    }
}

fn price_stretches<L: Loss>(heap: Global, loss: &L, gaps: &[u16]) -> Result<Sum, Failure>
    requires division { Division (L.Loss.table loss.now).length gaps.now }
    requires light { (L.Loss.table loss.now).ceiling ≤ 2 ^ 40 }
    ensures { elim result [ Ok s ↦ Summed (L.Loss.table loss.now) gaps.now s | Err e ↦ e ≡ OutOfMemory ] }
{
    let mut sum = Sum {
        stretches: Vec::new(heap),
        end: 0,
        loss: 0,
    };
    for gap in gaps {
        sum.add_stretch(loss, *gap)?;
    }
    sum.add_stretch(loss, loss.length())?;
    Ok(sum)
}

// Each mark with the boundaries in its span.
fn count_marks(heap: Global, marks: &[Mark], gaps: &[u16]) -> Result<Vec<CountedMark>, Failure>
    ensures { elim result [ Ok v ↦ v.items ≡ map (counted gaps.now) marks.now | Err e ↦ e ≡ OutOfMemory ] }
{
    let counted = marks.iter().map(|mark| CountedMark::of(*mark, gaps));
    Ok(counted.collect(heap)?)
}

// All that is told of the division `gaps` of the readings that the loss stands for.
#[tactic(auto, using(crate::proofs::Along::is_division, crate::proofs::Along::penalties_bound))]
pub fn price<L: Loss>(
    heap: Global,
    loss: &L,
    marks: &[Mark],
    shortest: u16,
    penalty: u64,
    gaps: &[u16],
) -> Result<Report, Failure>
    ensures refusal { FailedFor (price_refusal (L.Loss.table loss.now) penalty gaps.now) result }
    ensures told { IfOk result (Told (L.Loss.table loss.now) marks.now shortest penalty gaps.now) }
{
    check_opening(loss)?;
    if penalty > LARGEST_PENALTY {
        return Err(Fault::BadPenalty.into());
    }
    let n = loss.length();
    if !is_division(n, gaps) {
        return Err(Fault::BadStretch.into());
    }
    let sum = price_stretches(heap, loss, gaps)?;
    Ok(Report {
        stretches: sum.stretches,
        marks: count_marks(heap, marks, gaps)?,
        long_enough: is_long_enough(shortest, n, gaps),
        loss: sum.loss,
        total: sum.loss + penalty * gaps.len() as u64,
        allowed: is_allowed(marks, shortest, n, gaps),
    })
}
