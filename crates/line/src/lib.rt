// A line in its two states. The mark table, the lists, the buffers and the loss are lent at each call, one by one: a struct of them would hold
// references, and each clause would have to say besides that it still holds the same ones.
#![tactic(auto)]

pub use cuts::criterion::Criterion;

mod cut_calls;
mod marking_calls;

// A line that takes marks: it has n readings, and no stretch may hold fewer than `shortest` of them.
#[derive(Drop)]
pub struct Marking {
    n: u16,
    shortest: u16,
}

// A line that is cut: the division stands in the list of boundaries that was lent to the cut, and has this total. Its n and shortest are its
// own, as contracts name them.
#[derive(Drop)]
pub struct Cut {
    n: u16,
    shortest: u16,
    total: u64,
}
