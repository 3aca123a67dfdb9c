// A list over a slice that the caller lends: its entries stand in the first places, and it never allocates.
#![tactic(auto)]

ghost use Rattle.std.specs.Prelude.{◌≡◌, [], ◌∷◌, ◌++◌, length, drop, if◌then◌else◌, Ok, Err, MatchResult, nat_le, nat_lt, slice_set};
ghost use Rattle.fault.specs.declared.Fault.TheVariants.{ShortBuffer};
ghost use Rattle.list.specs.Entries.{entries, places};
ghost use Rattle.std.specs.List.{slice_get};

use fault::Fault;

// The first `len` places of `items` are the entries; what stands past them is not looked at. The length stands beside the slice, since
// the slice is the caller's, who keeps it where there is no heap. The clause `lender` says that a list is still over the same slice: no type
// says that of before and after.
#[derive(Drop)]
pub struct List<'a, T> {
    items: &'a mut [T],
    len: usize,
}

impl<'a, T: Copy> List<'a, T> {
    // An empty list over `items`, which it leaves as they stand.
    pub fn over(items: &'a mut [T]) -> List<'a, T>
        ensures entries { entries result ≡ [] }
        ensures places { places result ≡ items.old }
        ensures lender { result.items.ghost_name ≡ items.entry.ghost_name }
    {
        List { items, len: 0 }
    }

    // How many entries it has room for.
    pub fn capacity(&self) -> usize
        ensures { result ≡ length (places self.now) }
    {
        self.items.len()
    }

    // How many entries it has.
    pub fn len(&self) -> usize
        ensures { result ≡ length (entries self.now) }
    {
        self.len.min(self.items.len())
    }

    // The entry at the place `i`, counted from 0; none past the last.
    pub fn get(&self, i: usize) -> Option<T>
        ensures { result ≡ slice_get (entries self.now) i }
    {
        self.as_slice().get(i).copied()
    }

    // The entries.
    pub fn as_slice(&self) -> &[T]
        ensures { result.now ≡ entries self.now }
    {
        &self.items[..self.len()]
    }

    // Forgets the entries, and writes nothing.
    pub fn clear(&mut self)
        ensures entries { entries self.new ≡ [] }
        ensures places { places self.new ≡ places self.old }
        ensures lender { self.new.items.ghost_name ≡ self.old.items.ghost_name }
    {
        self.len = 0;
    }

    // One more entry at the end; a full list refuses it and stays as it was.
    pub fn push(&mut self, x: T) -> Result<(), Fault>
        ensures value { result ≡ (if nat_lt (length (entries self.old)) (length (places self.old)) then Ok tt else Err ShortBuffer) }
        ensures cases { MatchResult result
            (λ _. (entries self.new ≡ entries self.old ++ x ∷ [])
            × (places self.new ≡ slice_set (places self.old) (length (entries self.old)) x))
            (λ _. self.new ≡ self.old) }
        ensures lender { self.new.items.ghost_name ≡ self.old.items.ghost_name }
    {
        let at = self.len;
        if at < self.items.len() {
            self.items[at] = x;
            self.len = at + 1;
            Ok(())
        } else {
            Err(Fault::ShortBuffer)
        }
    }

    // `new` in place of the entries; a list too short for it refuses and stays as it was.
    pub fn replace(&mut self, new: &[T]) -> Result<(), Fault>
        ensures value { result ≡ (if nat_le (length new.now) (length (places self.old)) then Ok tt else Err ShortBuffer) }
        ensures cases { MatchResult result
            (λ _. (entries self.new ≡ new.now)
            × (places self.new ≡ new.now ++ drop (length new.now) (places self.old)))
            (λ _. self.new ≡ self.old) }
        ensures lender { self.new.items.ghost_name ≡ self.old.items.ghost_name }
    {
        let n = new.len();
        if n > self.items.len() {
            return Err(Fault::ShortBuffer);
        }
        self.items[0..n].copy_from_slice(new);
        self.len = n;
        Ok(())
    }
}
