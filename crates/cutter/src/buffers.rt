// The memory that the searches are lent: enough for 512 readings and any count of boundaries.
use envelope::Step;
use std::alloc::{AllocError, Global};

// 3 (n + 1) numbers, n rows of n + 1 starts, n - 1 boundaries, and n steps.
const NUMBERS: usize = 1539;

const STARTS: usize = 262656;

const BOUNDARIES: usize = 511;

const STEPS: usize = 512;

const NO_STEP: Step = Step {
    penalty: 0,
    count: 0,
    loss: 0,
};

#[derive(Drop)]
pub struct Buffers {
    pub numbers: Vec<u64>,
    pub trace: Vec<u16>,
    pub boundaries: Vec<u16>,
    pub steps: Vec<Step>,
}

impl Buffers {
    pub fn new(heap: Global) -> Result<Buffers, AllocError> {
        Ok(Buffers {
            numbers: vec![in heap; 0u64; NUMBERS]?,
            trace: vec![in heap; 0u16; STARTS]?,
            boundaries: vec![in heap; 0u16; BOUNDARIES]?,
            steps: vec![in heap; NO_STEP; STEPS]?,
        })
    }
}
