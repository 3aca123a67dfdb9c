// Lines out of bytes: of a line of any length only the front is kept, on the heap and as long as is asked. `inputs` keeps one of fixed length
// in the value itself.
#![tactic(auto)]

ghost use Rattle.std.specs.Prelude.{◌≡◌, ◌≤◌, [], ◌∷◌, ◌++◌, take, vec_len, OnOk};

use std::alloc::{AllocError, Global};

// The first bytes of the line that is being read, `most` of them.
#[derive(Drop)]
pub struct LineFront {
    bytes: Vec<u8>,
    most: usize,
    ghost few: { vec_len bytes ≤ most },
}

impl LineFront {
    pub fn new(heap: Global, most: usize) -> LineFront
        ensures bytes { result.bytes.items ≡ [] }
        ensures most { result.most ≡ most }
    {
        LineFront {
            bytes: Vec::new(heap),
            most,
        }
    }

    // One byte more of the line.
    pub fn put(&mut self, byte: u8) -> Result<(), AllocError>
        ensures bytes { OnOk result (self.new.bytes.items ≡ take self.old.most (self.old.bytes.items ++ byte ∷ [])) }
        ensures most { self.new.most ≡ self.old.most }
    {
        if self.bytes.len() < self.most {
            self.bytes.push(byte)?;
        }
        Ok(())
    }

    // What is kept of the line.
    pub fn bytes(&self) -> &[u8]
        ensures { result.now ≡ self.now.bytes.items }
    {
        self.bytes.as_slice()
    }

    // The next line begins.
    pub fn clear(&mut self)
        ensures bytes { self.new.bytes.items ≡ [] }
        ensures most { self.new.most ≡ self.old.most }
    {
        self.bytes.clear();
    }
}
