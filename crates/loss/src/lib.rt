// What a loss is, for every kind of loss; a loss that is lent; the limits, and which lines may be cut.
#![tactic(auto)]

pub mod check;
pub mod lent;
pub mod limits;
pub mod model;
