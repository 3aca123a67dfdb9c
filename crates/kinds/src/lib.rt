// What the readings of a program are: how many bytes each has in a frame, how those of a frame are taken, and which loss they are.
#![tactic(auto)]

pub mod both_sides;
pub mod model;
pub mod one_side;
pub mod pair_readings;
mod room;
pub mod theorems;
