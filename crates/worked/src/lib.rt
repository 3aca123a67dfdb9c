// Worked examples that are run, one file for each layer.
#![tactic(auto)]

#[cfg(test)]
mod cutting;
#[cfg(test)]
mod layered;
#[cfg(test)]
mod laying;
#[cfg(test)]
mod lists;
#[cfg(test)]
mod losses;
#[cfg(test)]
mod marked;
#[cfg(test)]
mod paths;
#[cfg(test)]
mod samples;
