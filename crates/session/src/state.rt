// What a session holds, and what it makes of a frame.
ghost use Rattle.std.specs.Prelude.{◌≡◌, [], Some, None};
ghost use Rattle.fault.specs.Refusal.{RefusedFor};
ghost use Rattle.marks.specs.Table.{marks_of};
ghost use Rattle.runs.specs.State.{room, PastKept};
ghost use Rattle.kinds.specs.Sides.{no_readings};
ghost use Rattle.session.specs.Held.{holding, call_cause, called, unless_refused};

use envelope::Step;
use fault::Fault;
use kinds::model::FrameReadings;
use list::List;
use marks::table::MarkTable;
use runs::model::{Call, Line};
use runs::opened::call_line;

// The readings so far, and the line over them once it is open, with its marks.
#[derive(Drop)]
pub struct Session<R> {
    readings: R,
    marks: MarkTable,
    line: Option<Line>,
}

impl<R: FrameReadings> Session<R> {
    // No readings, no marks, and no open line.
    pub fn new() -> Session<R>
        ensures readings { R.FrameReadings.held result.readings ≡ no_readings }
        ensures marks { marks_of result.marks ≡ [] }
        ensures line { result.line ≡ None }
    {
        Session {
            readings: R::empty(),
            marks: MarkTable::new(),
            line: None,
        }
    }

    // One call of the line.
    fn call(
        &mut self,
        call: Call,
        boundaries: &mut List<u16>,
        steps: &mut List<Step>,
        numbers: &mut [u64],
        trace: &mut [u16],
    ) -> Result<(), Fault>
        ensures refusal { RefusedFor (call_cause (R.FrameReadings.weighed (R.FrameReadings.held self.old.readings)) (room boundaries.old steps.old numbers.old trace.old)
            (holding (R.FrameReadings.held self.old.readings) self.old.line self.old.marks boundaries.old steps.old) self.old.line call) result }
        ensures after { holding (R.FrameReadings.held self.new.readings) self.new.line self.new.marks boundaries.new steps.new
            ≡ unless_refused (call_cause (R.FrameReadings.weighed (R.FrameReadings.held self.old.readings)) (room boundaries.old steps.old numbers.old trace.old)
            (holding (R.FrameReadings.held self.old.readings) self.old.line self.old.marks boundaries.old steps.old) self.old.line call)
            (called (R.FrameReadings.weighed (R.FrameReadings.held self.old.readings)) (holding (R.FrameReadings.held self.old.readings) self.old.line self.old.marks boundaries.old steps.old) self.old.line call)
            (holding (R.FrameReadings.held self.old.readings) self.old.line self.old.marks boundaries.old steps.old) }
        ensures boundaries { PastKept boundaries.old boundaries.new }
        ensures steps { PastKept steps.old steps.new }
    {
        call_line(
            &mut self.line,
            call,
            &self.readings,
            &mut self.marks,
            boundaries,
            steps,
            numbers,
            trace,
        )?;
        Ok(())
    }
}
