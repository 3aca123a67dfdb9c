// What the definitions of words, numbers and commands mean: each theorem stands in a contract.
ghost use Rattle.command.specs.Theorems.{WordsStand, NumbersStand, CommandsStand};

// A text is cut into the words that it was made of, and printed digits are read as their number.
pub fn words_are_read_back()
    ensures words { WordsStand }
    ensures numbers { NumbersStand }
{}

// Every command can be written, and is read as it was written.
pub fn commands_are_read_back()
    ensures { CommandsStand }
{}
