// How many bytes a reading takes, and how many readings a frame holds.
ghost use Rattle.std.specs.Prelude.{◌≡◌};
ghost use Rattle.frames.specs.Size.{bytes_each, whole_readings};

// The size of every reading of a program.
#[derive(Clone, Copy, PartialEq, Eq, Debug)]
pub enum ReadingSize {
    // one number
    Two,
    // port and code
    Three,
}

impl ReadingSize {
    pub fn bytes(self) -> usize
        ensures { result ≡ bytes_each self }
    {
        match self {
            ReadingSize::Two => 2,
            ReadingSize::Three => 3,
        }
    }

    // Are so many bytes the readings of one frame: at least one, whole ones, in at most 64 bytes?
    pub fn fits(self, bytes: usize) -> bool
        ensures { result ≡ whole_readings self bytes }
    {
        0 < bytes && bytes <= 64 && bytes % self.bytes() == 0
    }
}
