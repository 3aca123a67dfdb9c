// What a reader needs to check a printed division: what each stretch loses, what each mark holds, the total, and whether it is
// allowed.
#![tactic(auto)]

pub mod price;
pub mod report;
