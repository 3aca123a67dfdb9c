// The replies of a session, printed as upper-case hexadecimal.
#![tactic(auto)]

ghost use Rattle.hexadecimal.specs.Text.{Appends};
ghost use Rattle.replies.specs.Answered.{refusal, answered, reply_bytes, reply_text};
ghost use Rattle.replies.specs.Put.{Put};

use crate::parts::{put_cut, put_number, put_path};
use envelope::Step;
use fault::Fault;
use hexadecimal::text::put_text;
use std::alloc::AllocError;

mod parts;
pub mod theorems;

#[derive(Clone, Copy)]
pub enum Reply<'a> {
    // 10: the readings held
    Readings(u16),
    // 11: the readings of the line
    Open(u16),
    // 20: the marks that stand
    Mark(u16),
    // 21: the marks that stand
    Unmark(u16),
    // 22: the shortest stretch
    Shortest(u16),
    // 30: the total, the number of boundaries, and each of them
    CutByPenalty { total: u64, boundaries: &'a [u16] },
    // 31: the same
    CutByCount { total: u64, boundaries: &'a [u16] },
    // 32: the number of steps, and of each its penalty, count and loss
    Path(&'a [Step]),
    // 40
    Reopen,
    // EE: the refusal's number, and that of the input line
    Refusal { fault: Fault, line: u16 },
}

// Appends the text of a refusal, without a line end. Where memory is wanting, nothing is appended.
pub fn put_refusal(out: &mut Vec<u8>, fault: Fault, line: u16) -> Result<(), AllocError>
    ensures { Appends (reply_text (refusal fault line)) out.old.items out.new.items result }
{
    let [high, low] = line.to_be_bytes();
    put_text(out, &[0xee, fault.number(), high, low])
}

fn put_parts(out: &mut Vec<u8>, reply: &Reply<'_>) -> Result<(), AllocError>
    ensures { Put (reply_bytes (answered reply.now)) out.old.items out.new.items result }
{
    match *reply {
        Reply::Readings(held) => put_number(out, 0x10, held),
        Reply::Open(n) => put_number(out, 0x11, n),
        Reply::Mark(standing) => put_number(out, 0x20, standing),
        Reply::Unmark(standing) => put_number(out, 0x21, standing),
        Reply::Shortest(m) => put_number(out, 0x22, m),
        Reply::CutByPenalty { total, boundaries } => put_cut(out, 0x30, total, boundaries),
        Reply::CutByCount { total, boundaries } => put_cut(out, 0x31, total, boundaries),
        Reply::Path(steps) => put_path(out, steps),
        Reply::Reopen => put_text(out, &[0x40]),
        Reply::Refusal { fault, line } => put_refusal(out, fault, line),
    }
}

// Appends the text of a reply, without a line end. Where memory is wanting, nothing is appended.
pub fn put_reply(out: &mut Vec<u8>, reply: &Reply<'_>) -> Result<(), AllocError>
    ensures { Appends (reply_text (answered reply.now)) out.old.items out.new.items result }
{
    let before = out.len();
    let put = put_parts(out, reply);
    if put.is_err() {
        out.truncate(before);
    }
    put
}
