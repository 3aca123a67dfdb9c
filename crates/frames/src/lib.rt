// The frames of a session: a line of hexadecimal, its bytes, and what they ask.
#![tactic(auto)]

pub mod frame;
pub mod reading;
pub mod size;
pub mod theorems;
