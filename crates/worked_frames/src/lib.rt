// The session of the line 3, 3, 8, 9, 4, 4, line by line: each input line as it is read, and each reply as it is printed.
#![tactic(auto)]

#[cfg(test)]
mod tests;
