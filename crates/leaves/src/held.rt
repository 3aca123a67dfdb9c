// Readings, each kept as its distance from a lowest level.
ghost use Rattle.std.specs.Prelude.{◌≡◌, ◌≤◌, ◌&&◌, [], ◌∷◌, ◌++◌, length, IfOk, OnErr, nat_lt, nat_le};
ghost use Rattle.leaves.specs.Kept.{Low};
ghost use Rattle.leaves.specs.Taking.{admitted};

use crate::admit::admit;
use arrayvec::ArrayVec;
use fault::Fault;

// At most 512 of them, in their order, none further from the lowest level than SPAN.
#[derive(Drop)]
pub(crate) struct Held<const SPAN: u16> {
    distances: ArrayVec<u16, 512>,
    ghost few: { length distances.items ≤ 512 },
    ghost low: { Low SPAN distances.items },
}

impl<const SPAN: u16> Held<SPAN> {
    pub(crate) fn new() -> Self
        ensures { result.distances.items ≡ [] }
    {
        Held {
            distances: ArrayVec::new(),
        }
    }

    pub(crate) fn length(&self) -> u16
        ensures { result ≡ length self.now.distances.items }
    {
        self.distances.len() as u16
    }

    pub(crate) fn distances(&self) -> &[u16]
        ensures { result.now ≡ self.now.distances.items }
    {
        self.distances.as_slice()
    }

    // Whether there is a stretch (a, b) of the readings.
    #[inline]
    pub(crate) fn has_stretch(&self, a: u16, b: u16) -> bool
        ensures { result ≡ (nat_lt a b && nat_le b (length self.now.distances.items)) }
    {
        a < b && usize::from(b) <= self.distances.len()
    }

    // Takes the reading x behind the others, and tells its distance from the lowest level lo.
    pub(crate) fn push(&mut self, lo: i32, x: i32) -> Result<u16, Fault>
        ensures result { result ≡ admitted lo SPAN (length self.old.distances.items) x }
        ensures ok { IfOk result (λ u. self.new.distances.items ≡ self.old.distances.items ++ u ∷ []) }
        ensures err { OnErr result (self.new.distances.items ≡ self.old.distances.items) }
    {
        let u = admit(lo, SPAN, self.distances.len(), x)?;
        self.distances.push(u);
        Ok(u)
    }
}
