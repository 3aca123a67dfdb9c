// What a cut is asked for: a penalty for each boundary, or a number of boundaries.
#[derive(Clone, Copy, PartialEq, Eq, Debug)]
pub enum Criterion {
    Penalty(u64),
    Count(u16),
}
