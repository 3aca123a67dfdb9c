// The parts of replies: a kind, numbers in two and eight bytes, and lists of them.
ghost use Rattle.std.specs.Prelude.{◌≡◌, ℕ, List, ◌∷◌, ◌++◌};
ghost use Rattle.std.specs.List.{flat_map};
ghost use Rattle.hexadecimal.specs.Digits.{text_of};
ghost use Rattle.hexadecimal.specs.Text.{Appends};
ghost use Rattle.frames.specs.Numbers.{two_bytes, eight_bytes};
ghost use Rattle.replies.specs.Answered.{step_bytes, cut_bytes, path_bytes};
ghost use Rattle.replies.specs.Put.{Put};

use envelope::Step;
use hexadecimal::text::put_text;
use std::alloc::AllocError;

// The low two bytes of a number.
fn low_two(n: usize) -> [u8; 2]
    ensures { result ≡ two_bytes n }
{
    let [.., high, low] = n.to_be_bytes();
    [high, low]
}

// What stands before the boundaries of a cut.
fn cut_front(kind: u8, total: u64, boundaries: usize) -> [u8; 11]
    ensures { result ≡ kind ∷ (eight_bytes total ++ two_bytes boundaries) }
{
    let [a, b, c, d, e, f, g, h] = total.to_be_bytes();
    let [high, low] = low_two(boundaries);
    [kind, a, b, c, d, e, f, g, h, high, low]
}

// What stands before the steps of a path.
fn path_front(steps: usize) -> [u8; 3]
    ensures { result ≡ 0x32 ∷ two_bytes steps }
{
    let [high, low] = low_two(steps);
    [0x32, high, low]
}

// A step's penalty, count and loss.
fn step_bytes(step: Step) -> [u8; 18]
    ensures { result ≡ step_bytes step }
{
    let [a, b, c, d, e, f, g, h] = step.penalty.to_be_bytes();
    let [i, j] = step.count.to_be_bytes();
    let [k, l, m, n, o, p, q, r] = step.loss.to_be_bytes();
    [a, b, c, d, e, f, g, h, i, j, k, l, m, n, o, p, q, r]
}

// Appends a kind and one number.
pub fn put_number(out: &mut Vec<u8>, kind: u8, n: u16) -> Result<(), AllocError>
    ensures { Put (kind ∷ two_bytes n) out.old.items out.new.items result }
{
    let [high, low] = n.to_be_bytes();
    put_text(out, &[kind, high, low])
}

// What a list in a reply holds.
trait Entry {
    ghost bytes: { Self → List ℕ };

    // Appends its bytes.
    fn put(&self, out: &mut Vec<u8>) -> Result<(), AllocError>
        ensures { Appends (text_of (bytes self.now)) out.old.items out.new.items result };
}

// A boundary.
impl Entry for u16 {
    ghost bytes = { two_bytes };

    fn put(&self, out: &mut Vec<u8>) -> Result<(), AllocError> {
        put_text(out, &self.to_be_bytes())
    }
}

impl Entry for Step {
    ghost bytes = { step_bytes };

    fn put(&self, out: &mut Vec<u8>) -> Result<(), AllocError> {
        put_text(out, &step_bytes(*self))
    }
}

// Appends each entry.
fn put_each<T: Entry>(out: &mut Vec<u8>, entries: &[T]) -> Result<(), AllocError>
    ensures { Put (flat_map T.bytes entries.now) out.old.items out.new.items result }
{
    for entry in entries {
        entry.put(out)?;
    }
    Ok(())
}

// Appends a kind, the total, the number of boundaries and each of them.
pub fn put_cut(
    out: &mut Vec<u8>,
    kind: u8,
    total: u64,
    boundaries: &[u16],
) -> Result<(), AllocError>
    ensures { Put (kind ∷ cut_bytes total boundaries.now) out.old.items out.new.items result }
{
    put_text(out, &cut_front(kind, total, boundaries.len()))?;
    put_each(out, boundaries)
}

// Appends the number of steps and each of them.
pub fn put_path(out: &mut Vec<u8>, steps: &[Step]) -> Result<(), AllocError>
    ensures { Put (0x32 ∷ path_bytes steps.now) out.old.items out.new.items result }
{
    put_text(out, &path_front(steps.len()))?;
    put_each(out, steps)
}
