// What divisions are compared by: the loss alone, or the total with the number of boundaries.
#![tactic(auto)]

pub mod by_loss;
pub mod by_penalty;
pub mod model;
