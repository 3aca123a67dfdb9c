// Losses that hold readings of their own: by squares, by distances and by votes.
#![tactic(auto)]

pub mod admit;
pub mod distances;
pub mod gather;
mod held;
pub mod kind;
pub mod model;
pub mod squares;
pub mod theorems;
pub mod votes;
