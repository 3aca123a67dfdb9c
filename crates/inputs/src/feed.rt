// An input is taken part by part, and each of its lines is answered.
ghost use Rattle.std.specs.Prelude.{◌≡◌, ◌<◌, [], ◌++◌, fold, OnOk, ◌==◌};
ghost use Rattle.inputs.specs.Lines.{lines_of, state_after, replies_to, text_of};
ghost use Rattle.inputs.specs.Reading.{front_of, read_by, ended, next, closed};

use crate::model::Answerer;
use crate::reader::LineReader;
use arrayvec::ArrayVec;
use std::alloc::AllocError;

// The most lines that are read.
pub const MOST_LINES: u16 = 65535;

impl LineReader {
    // Nothing is read.
    pub fn new() -> LineReader
        ensures { (front_of result ≡ []) × (result.lines ≡ 0) }
    {
        LineReader {
            front: ArrayVec::new(),
            lines: 0,
        }
    }

    // Has reading ended, since 65,535 lines are answered?
    pub fn is_over(&self) -> bool
        ensures { result ≡ (self.now.lines == 65535) }
    {
        self.lines == MOST_LINES
    }

    // The line ends: it is answered. Answerer and text are lent at each part, so that the text may be taken away between parts.
    fn end_line<A: Answerer>(
        &mut self,
        answerer: &mut A,
        out: &mut Vec<u8>,
    ) -> Result<(), AllocError>
        requires { self.old.lines < 65535 }
        ensures { OnOk result (read_by self.new (A.Answerer.state answerer.new) out.new.items ≡ ended A.Answerer.step A.Answerer.reply (read_by self.old (A.Answerer.state answerer.old) out.old.items)) }
    {
        self.lines += 1;
        answerer.answer(self.front.as_slice(), self.lines, out)?;
        out.push(b'\n')?;
        self.front.clear();
        Ok(())
    }

    // One byte of the input.
    fn byte<A: Answerer>(
        &mut self,
        byte: u8,
        answerer: &mut A,
        out: &mut Vec<u8>,
    ) -> Result<(), AllocError>
        ensures { OnOk result (read_by self.new (A.Answerer.state answerer.new) out.new.items ≡ next A.Answerer.step A.Answerer.reply (read_by self.old (A.Answerer.state answerer.old) out.old.items) byte) }
    {
        if self.lines == MOST_LINES {
            return Ok(());
        }
        if byte == b'\n' {
            return self.end_line(answerer, out);
        }
        if !self.front.is_full() {
            self.front.push(byte);
        }
        Ok(())
    }

    // A part of the input. Refused where memory is wanting.
    pub fn feed<A: Answerer>(
        &mut self,
        part: &[u8],
        answerer: &mut A,
        out: &mut Vec<u8>,
    ) -> Result<(), AllocError>
        ensures { OnOk result (read_by self.new (A.Answerer.state answerer.new) out.new.items ≡ fold (next A.Answerer.step A.Answerer.reply) (read_by self.old (A.Answerer.state answerer.old) out.old.items) part.now) }
    {
        for byte in part {
            self.byte(*byte, answerer, out)?;
        }
        Ok(())
    }

    // The input has ended: its last line may lack a line end.
    pub fn finish<A: Answerer>(
        &mut self,
        answerer: &mut A,
        out: &mut Vec<u8>,
    ) -> Result<(), AllocError>
        ensures { OnOk result (read_by self.new (A.Answerer.state answerer.new) out.new.items ≡ closed A.Answerer.step A.Answerer.reply (read_by self.old (A.Answerer.state answerer.old) out.old.items)) }
    {
        if self.front.is_empty() || self.lines == MOST_LINES {
            return Ok(());
        }
        self.end_line(answerer, out)
    }
}

// Answers a whole input: the reply to each of its lines is appended, in order.
pub fn answer_input<A: Answerer>(
    input: &[u8],
    answerer: &mut A,
    out: &mut Vec<u8>,
) -> Result<(), AllocError>
    ensures after { OnOk result (A.Answerer.state answerer.new ≡ state_after A.Answerer.step (A.Answerer.state answerer.old) 0 (lines_of input.now)) }
    ensures printed { OnOk result (out.new.items ≡ out.old.items ++ text_of (replies_to A.Answerer.step A.Answerer.reply (A.Answerer.state answerer.old) 0 (lines_of input.now))) }
{
    let mut reader = LineReader::new();
    reader.feed(input, answerer, out)?;
    reader.finish(answerer, out)?;
    Ok(())
}
