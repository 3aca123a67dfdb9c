// A session of frames over one line, for every kind of readings, begun: what it holds, and its calls of the line. No frame is carried out yet.
#![tactic(auto)]

mod entries;
pub mod state;
