// Runs of calls that are made, watched and not, and lines that cannot be opened.
#![tactic(auto)]

pub mod long;
#[cfg(test)]
mod opening;
#[cfg(test)]
mod running;
#[cfg(test)]
mod table;
