// The limits of lines and penalties.

// The most readings that a line has, and so a loss.
pub const MOST_READINGS: u16 = 512;

// The largest penalty for a boundary.
pub const LARGEST_PENALTY: u64 = 1 << 49;
