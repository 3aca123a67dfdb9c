// Lines of upper-case hexadecimal: two digits to a byte, the high one first.
#![tactic(auto)]

pub mod line;
pub mod text;
pub mod theorems;
