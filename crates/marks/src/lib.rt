// The marks that stand on a line: laying one, lifting one, and what both keep true.
#![tactic(auto)]

pub mod lent;
pub mod table;
pub mod theorems;
