// Divisions of a line, the marks that they obey, and the cheapest of them.
#![tactic(auto)]

pub mod check;
pub mod mark;
pub mod theorems;
