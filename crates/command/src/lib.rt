// The commands of the line cutter: one line of text, and what it asks.
#![tactic(auto)]

ghost use Rattle.command.specs.Line.{read_line};
ghost use Rattle.command.specs.Said.{Answers, said};

use crate::word::{is_all_legible, next_word};
use division::mark::Mark;
use fault::{Failure, Fault};
use leaves::kind::LossKind;
use std::alloc::Global;

mod named;
mod number;
pub mod theorems;
mod word;

#[derive(Drop)]
pub enum Command {
    // no word, or a first word that begins with '#'
    Nothing,
    // help
    Help,
    // loss squares | loss distances | loss votes
    Loss(LossKind),
    // readings READING READING ..
    Readings(Vec<i32>),
    // mark FIRST LAST BOUNDARIES
    Mark(Mark),
    // unmark FIRST
    Unmark(u16),
    // shortest M
    Shortest(u16),
    // price PENALTY, or price PENALTY at GAP GAP ..
    Price { penalty: u64, gaps: Vec<u16> },
    // best PENALTY; two variants and no `Criterion`, which stands in a crate above
    BestByPenalty(u64),
    // best count COUNT
    BestByCount(u16),
    // path
    Path,
}

// The most bytes of a line.
pub const LONGEST: usize = 4096;

// What a line, without its line end, asks. What is refused first: more than LONGEST bytes, or one that is neither a blank nor
// printable; then an unknown command, or words that do not fit it; then a word that should write a number and does not.
pub fn read(heap: Global, line: &[u8]) -> Result<Command, Failure>
    ensures { Answers said (read_line line.now) result }
{
    if line.len() > LONGEST || !is_all_legible(line) {
        return Err(Fault::MalformedLine.into());
    }
    match next_word(line) {
        None => Ok(Command::Nothing),
        Some((name, rest)) => named::command(heap, name, rest),
    }
}
