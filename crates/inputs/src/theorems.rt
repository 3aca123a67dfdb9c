// What lines are, and that an input that comes in parts is answered line by line: each theorem stands in a contract.
ghost use Rattle.inputs.specs.Reading.{LineByLine, TextApart};
ghost use Rattle.inputs.specs.Theorems.{LinesInWords, OneEach};

use crate::model::Answerer;

// Lines are read as they were written, with or without a line end behind the last, and at most 65,535.
pub fn lines_in_words()
    ensures { LinesInWords }
{}

// However an input comes in parts, the replies are those of its lines, one each, in order; the text may be taken away between parts.
pub fn answered_line_by_line<A: Answerer>()
    ensures lines { LineByLine A.Answerer.step A.Answerer.reply }
    ensures apart { TextApart A.Answerer.step A.Answerer.reply }
    ensures each { OneEach A.Answerer.step A.Answerer.reply }
{}
