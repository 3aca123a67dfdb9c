// What the definitions of frames and readings mean: each theorem stands in a contract.
ghost use Rattle.frames.specs.Theorems.{SizesInWords, NumbersReadBack, FramesReadBack, FramesWrittenBack, RefusedWhenNone, LinesReadBack, FrontSuffices, ReadingsReadBack, ReadingsWrittenBack, PairsReadBack, PairsWrittenBack};

// A frame holds 1 to 32 readings of two bytes, or 1 to 21 of three.
pub fn sizes_in_words()
    ensures { SizesInWords }
{}

// Every frame whose numbers fit is read back from its bytes and from its line; bytes that are read as a frame are its bytes,
// and all other bytes are refused.
pub fn frames_are_read_back()
    ensures numbers { NumbersReadBack }
    ensures read { FramesReadBack }
    ensures written { FramesWrittenBack }
    ensures refused { RefusedWhenNone }
    ensures line { LinesReadBack }
    ensures front { FrontSuffices }
{}

// The same of readings, of two bytes and of three.
pub fn readings_are_read_back()
    ensures read { ReadingsReadBack }
    ensures written { ReadingsWrittenBack }
    ensures pair_read { PairsReadBack }
    ensures pair_written { PairsWrittenBack }
{}
