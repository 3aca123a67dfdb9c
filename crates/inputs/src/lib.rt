// Whole inputs, in constant memory: an input that comes in parts is answered line by line.
#![tactic(auto)]

pub mod feed;
pub mod model;
pub mod reader;
pub mod theorems;
