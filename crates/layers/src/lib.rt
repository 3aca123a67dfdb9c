// Losses that stand on other losses, to any depth.
#![tactic(auto)]

pub mod pair;
pub mod weighted;
