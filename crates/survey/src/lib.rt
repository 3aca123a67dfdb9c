// The line that a person works on: readings under one of three losses, marks, and a shortest stretch.
#![tactic(auto)]

pub mod held;
pub mod state;
