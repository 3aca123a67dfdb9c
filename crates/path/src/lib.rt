// The path of a line: for every penalty, the number of boundaries and the loss of the division that a cut there gives. Readings are widened
// by `as`, as in `search`.
#![tactic(auto)]

pub mod path;
pub mod theorems;
