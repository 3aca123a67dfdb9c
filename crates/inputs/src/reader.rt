// The line that is being read, and how many have ended.
use arrayvec::ArrayVec;

// So many bytes decide what a line says.
pub(crate) const FRONT: usize = 131;

// Of the line the first bytes are kept.
#[derive(Drop)]
pub struct LineReader {
    pub(crate) front: ArrayVec<u8, FRONT>,
    pub(crate) lines: u16,
}
