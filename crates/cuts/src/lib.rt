// The best allowed division of a line, by penalty and by count, and the least loss for each count. Readings are widened by `as`, as in
// `search`.
#![tactic(auto)]

pub mod criterion;
pub mod cuts;
pub mod least;
pub mod refusal;
