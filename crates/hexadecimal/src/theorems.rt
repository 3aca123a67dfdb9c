// What the definitions of digits, bytes and lines mean: each theorem stands in a contract.
ghost use Rattle.hexadecimal.specs.Theorems.{ReadBack, WrittenBack, LineReadBack, ReadWhenWellFormed, RefusedWhenNot, FrontSuffices};

// Bytes that are written are read back, and digits that are read are those that write their bytes.
pub fn bytes_are_read_back()
    ensures read { ReadBack }
    ensures written { WrittenBack }
    ensures line { LineReadBack }
{}

// A line is refused exactly where it is empty, has an odd number of characters, more than 130 of them, or one that is no digit.
pub fn well_formed_lines_are_read()
    ensures read { ReadWhenWellFormed }
    ensures refused { RefusedWhenNot }
{}

// The first 131 bytes of a line decide how it is read.
pub fn front_suffices()
    ensures { FrontSuffices }
{}
