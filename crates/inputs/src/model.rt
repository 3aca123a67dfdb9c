// Whoever answers the lines of an input.
ghost use Rattle.std.specs.Prelude.{◌≡◌, ℕ, List, ◌++◌, take, OnOk};

use std::alloc::AllocError;

pub trait Answerer {
    // What replies depend on.
    ghost State: { Type 0 };

    ghost state: { Self → State };

    // The state after a line with its number.
    ghost step: { State → List ℕ → ℕ → State };

    // The reply to it, without a line end.
    ghost reply: { State → List ℕ → ℕ → List ℕ };

    // Answers a line, of which it is given at most the first 131 bytes: the reply is appended.
    fn answer(&mut self, line: &[u8], number: u16, out: &mut Vec<u8>) -> Result<(), AllocError>
        ensures after { OnOk result (state self.new ≡ step (state self.old) line.now number) }
        ensures printed { OnOk result (out.new.items ≡ out.old.items ++ reply (state self.old) line.now number) };

    // The first 131 bytes of a line decide.
    ghost stepped: { (s : State) (line : List ℕ) (n : ℕ) → step s (take 131 line) n ≡ step s line n };

    ghost replied: { (s : State) (line : List ℕ) (n : ℕ) → reply s (take 131 line) n ≡ reply s line n };
}
