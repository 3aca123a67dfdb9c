// One command after the other, on the line that is worked on.
use crate::buffers::Buffers;
use crate::problem::Problem;
use crate::show::{kind_name, show_best, show_comparison, show_help, show_path, show_report};
use command::{Command, read};
use cuts::criterion::Criterion;
use division::mark::Mark;
use leaves::kind::LossKind;
use list::List;
use std::alloc::{AllocError, Global};
use survey::state::Survey;

#[derive(Drop)]
pub struct Console {
    survey: Survey,
    buffers: Buffers,
    lines: u64,
}

impl Console {
    pub fn new(heap: Global) -> Result<Console, AllocError> {
        Ok(Console {
            survey: Survey::new(LossKind::Squares),
            buffers: Buffers::new(heap)?,
            lines: 0,
        })
    }

    // Carries out the command on a line of input, and prints what was done or why it was refused.
    pub fn answer(&mut self, rt: &HostRuntime, line: &[u8]) -> anyhow::Result<()> {
        self.lines = self.lines.saturating_add(1);
        match self.obey(rt, line) {
            Ok(()) => Ok(()),
            Err(Problem::Refused(fault)) => {
                let line = self.lines;
                let number = fault.number();
                let name = fault.name();
                println!(rt; "line {line}: refused {number}, {name}")?;
                Ok(())
            }
            Err(Problem::Fatal(error)) => Err(error),
        }
    }

    fn obey(&mut self, rt: &HostRuntime, line: &[u8]) -> Result<(), Problem> {
        match read(rt.alloc(), line)? {
            Command::Nothing => Ok(()),
            Command::Help => Ok(show_help(rt)?),
            Command::Loss(kind) => self.begin(rt, kind),
            Command::Readings(readings) => self.take_readings(rt, readings.as_slice()),
            Command::Mark(mark) => self.lay(rt, mark),
            Command::Unmark(first) => self.lift(rt, first),
            Command::Shortest(m) => self.set_shortest(rt, m),
            Command::Price { penalty, gaps } => self.price(rt, penalty, gaps.as_slice()),
            Command::BestByPenalty(penalty) => self.best(rt, Criterion::Penalty(penalty)),
            Command::BestByCount(count) => self.best(rt, Criterion::Count(count)),
            Command::Path => self.path(rt),
        }
    }

    // A new line, under the loss of that kind.
    fn begin(&mut self, rt: &HostRuntime, kind: LossKind) -> Result<(), Problem> {
        self.survey = Survey::new(kind);
        let name = kind_name(kind);
        println!(rt; "loss {name}: a new line")?;
        Ok(())
    }

    fn take_readings(&mut self, rt: &HostRuntime, readings: &[i32]) -> Result<(), Problem> {
        let held = self.survey.gather(readings)?;
        let taken = readings.len();
        println!(rt; "readings: {taken} taken, {held} held")?;
        Ok(())
    }

    fn lay(&mut self, rt: &HostRuntime, mark: Mark) -> Result<(), Problem> {
        let count = self.survey.lay(mark)?;
        let Mark {
            first,
            last,
            boundaries,
        } = mark;
        println!(rt; "mark {first} {last} {boundaries}: laid, {count} in all")?;
        Ok(())
    }

    fn lift(&mut self, rt: &HostRuntime, first: u16) -> Result<(), Problem> {
        let count = self.survey.lift(first)?;
        println!(rt; "unmark {first}: lifted, {count} in all")?;
        Ok(())
    }

    fn set_shortest(&mut self, rt: &HostRuntime, m: u16) -> Result<(), Problem> {
        self.survey.set_shortest(m)?;
        println!(rt; "shortest {m}: set")?;
        Ok(())
    }

    fn price(&mut self, rt: &HostRuntime, penalty: u64, gaps: &[u16]) -> Result<(), Problem> {
        let report = self.survey.price(rt.alloc(), penalty, gaps)?;
        let shortest = self.survey.shortest();
        show_report(rt, penalty, shortest, gaps, &report)?;
        let mut list = List::over(self.buffers.boundaries.as_mut_slice());
        let found = self.survey.best(
            Criterion::Penalty(penalty),
            self.buffers.numbers.as_mut_slice(),
            self.buffers.trace.as_mut_slice(),
            &mut list,
        );
        show_comparison(rt, gaps, report.total, found.ok(), list.as_slice())?;
        Ok(())
    }

    fn best(&mut self, rt: &HostRuntime, criterion: Criterion) -> Result<(), Problem> {
        let mut list = List::over(self.buffers.boundaries.as_mut_slice());
        let total = self.survey.best(
            criterion,
            self.buffers.numbers.as_mut_slice(),
            self.buffers.trace.as_mut_slice(),
            &mut list,
        )?;
        show_best(rt, criterion, total, list.as_slice())?;
        Ok(())
    }

    fn path(&mut self, rt: &HostRuntime) -> Result<(), Problem> {
        let mut list = List::over(self.buffers.steps.as_mut_slice());
        self.survey
            .path(self.buffers.numbers.as_mut_slice(), &mut list)?;
        show_path(rt, list.as_slice())?;
        Ok(())
    }
}
