// Each command by its name, with the words that it takes.
ghost use Rattle.std.specs.Prelude.{◌≡◌, [], ◌∷◌, Ok, Err, vec_items, MatchResult};
ghost use Rattle.fault.specs.declared.Fault.TheVariants.{UnknownFrame};
ghost use Rattle.command.specs.Words.{words};
ghost use Rattle.command.specs.Line.{and_then, number, read_all, alone, one, three, loss_named, to_readings, to_mark, behind_at, to_price, to_best, by_name};
ghost use Rattle.command.specs.Said.{Answers, Says, said, loss, mark};

use crate::Command;
use crate::number::Field;
use crate::word::next_word;
use division::mark::Mark;
use fault::{Failure, Fault};
use leaves::kind::LossKind;
use std::alloc::Global;

// The number that a word writes.
fn field<T: Field>(word: &[u8]) -> Result<T, Fault>
    ensures { result ≡ number (T.Field.means word.now) }
{
    T::from_word(word).ok_or(Fault::MalformedLine)
}

// The numbers that the words of a text write.
fn fields<T: Field + Drop>(heap: Global, text: &[u8]) -> Result<Vec<T>, Failure>
    ensures { Answers vec_items (number (read_all T.Field.means (words text.now))) result }
{
    let mut all = Vec::new(heap);
    let mut left = text;
    while let Some((word, rest)) = next_word(left) {
        all.push(field(word)?)?;
        left = rest;
    }
    Ok(all)
}

// The command, where no word is left.
fn alone(command: Command, text: &[u8]) -> Result<Command, Fault>
    ensures { Says said (alone (said command) (words text.now)) result }
{
    match next_word(text) {
        None => Ok(command),
        Some(_) => Err(Fault::UnknownFrame),
    }
}

// The first word, and what stands behind it.
fn first_word(text: &[u8]) -> Result<(&[u8], &[u8]), Fault>
    ensures { MatchResult result (λ p. words text.now ≡ p.0.now ∷ words p.1.now) (λ e. (words text.now ≡ []) × (e ≡ UnknownFrame)) }
{
    next_word(text).ok_or(Fault::UnknownFrame)
}

// The only word.
fn one(text: &[u8]) -> Result<&[u8], Fault>
    ensures { MatchResult result (λ w. one (words text.now) ≡ Ok w.now) (λ e. one (words text.now) ≡ Err e) }
{
    let (word, rest) = first_word(text)?;
    match next_word(rest) {
        None => Ok(word),
        Some(_) => Err(Fault::UnknownFrame),
    }
}

// The number that the only word writes.
fn only<T: Field>(text: &[u8]) -> Result<T, Fault>
    ensures { result ≡ and_then (one (words text.now)) (λ w. number (T.Field.means w)) }
{
    field(one(text)?)
}

// The three words.
fn three(text: &[u8]) -> Result<(&[u8], &[u8], &[u8]), Fault>
    ensures { MatchResult result (λ t. three (words text.now) ≡ Ok (t.0.now, t.1.now, t.2.now)) (λ e. three (words text.now) ≡ Err e) }
{
    let (first, rest) = first_word(text)?;
    let (second, rest) = first_word(rest)?;
    let third = one(rest)?;
    Ok((first, second, third))
}

// squares | distances | votes
// No TryFrom: the words are the command's, and any other is refused as its own.
fn loss_kind(name: &[u8]) -> Result<LossKind, Fault>
    ensures { Says loss (loss_named name.now) result }
{
    match name {
        b"squares" => Ok(LossKind::Squares),
        b"distances" => Ok(LossKind::Distances),
        b"votes" => Ok(LossKind::Votes),
        _ => Err(Fault::UnknownFrame),
    }
}

// readings READING READING ..
fn readings(heap: Global, text: &[u8]) -> Result<Command, Failure>
    ensures { Answers said (to_readings (words text.now)) result }
{
    // at least one
    first_word(text)?;
    Ok(Command::Readings(fields(heap, text)?))
}

// mark FIRST LAST BOUNDARIES
fn mark(text: &[u8]) -> Result<Mark, Fault>
    ensures { Says mark (to_mark (words text.now)) result }
{
    let (first, last, boundaries) = three(text)?;
    Ok(Mark {
        first: field(first)?,
        last: field(last)?,
        boundaries: field(boundaries)?,
    })
}

// What stands behind the word `at`, or nothing.
fn behind_at(text: &[u8]) -> Result<&[u8], Fault>
    ensures { MatchResult result (λ t. behind_at (words text.now) ≡ Ok (words t.now)) (λ e. behind_at (words text.now) ≡ Err e) }
{
    match next_word(text) {
        None => Ok(text),
        Some((b"at", rest)) => Ok(rest),
        Some(_) => Err(Fault::UnknownFrame),
    }
}

// price PENALTY, or price PENALTY at GAP GAP ..
fn price(heap: Global, text: &[u8]) -> Result<Command, Failure>
    ensures { Answers said (to_price (words text.now)) result }
{
    let (penalty, rest) = first_word(text)?;
    let gaps = behind_at(rest)?;
    let penalty = field(penalty)?;
    let gaps = fields(heap, gaps)?;
    Ok(Command::Price { penalty, gaps })
}

// best PENALTY, or best count COUNT
fn best(text: &[u8]) -> Result<Command, Fault>
    ensures { Says said (to_best (words text.now)) result }
{
    let (word, rest) = first_word(text)?;
    if next_word(rest).is_none() {
        return Ok(Command::BestByPenalty(field(word)?));
    }
    match word {
        b"count" => Ok(Command::BestByCount(only(rest)?)),
        _ => Err(Fault::UnknownFrame),
    }
}

// The command of that name, with the words of the text.
pub fn command(heap: Global, name: &[u8], text: &[u8]) -> Result<Command, Failure>
    ensures { Answers said (by_name name.now (words text.now)) result }
{
    match name {
        [b'#', ..] => Ok(Command::Nothing),
        b"help" => Ok(alone(Command::Help, text)?),
        b"loss" => Ok(Command::Loss(loss_kind(one(text)?)?)),
        b"readings" => readings(heap, text),
        b"mark" => Ok(Command::Mark(mark(text)?)),
        b"unmark" => Ok(Command::Unmark(only(text)?)),
        b"shortest" => Ok(Command::Shortest(only(text)?)),
        b"price" => price(heap, text),
        b"best" => Ok(best(text)?),
        b"path" => Ok(alone(Command::Path, text)?),
        _ => Err(Fault::UnknownFrame.into()),
    }
}
