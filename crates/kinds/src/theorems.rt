// What the bytes of a frame bring, in words.
ghost use Rattle.kinds.specs.Theorems.{BroughtInWords};

pub fn brought_in_words()
    ensures { BroughtInWords }
{}
