// One mark more or less among the first `len` of a slice.
ghost use Rattle.std.specs.Prelude.{◌≡◌, ◌+◌, ◌-◌, ◌<◌, ◌≤◌, length, take};
ghost use Rattle.std.specs.List.{insert, remove};

use division::mark::Mark;

// Puts `mark` at the place `at`, and moves those from there on up by one.
pub(crate) fn insert(marks: &mut [Mark], len: usize, at: usize, mark: Mark)
    requires { (at ≤ len) × (len < length marks.old) }
    ensures { take (len + 1) marks.new ≡ insert (take len marks.old) at mark }
{
    marks[len] = mark;
    marks[at..len + 1].rotate_right(1);
}

// Takes the mark at the place `at` out, and moves those after it down by one.
pub(crate) fn remove(marks: &mut [Mark], len: usize, at: usize)
    requires { (at < len) × (len ≤ length marks.old) }
    ensures { take (len - 1) marks.new ≡ remove (take len marks.old) at }
{
    marks[at..len].rotate_left(1);
}
