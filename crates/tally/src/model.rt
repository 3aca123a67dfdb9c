// A tally: what the stretches so far come to, how two of them compare, and how a row of numbers holds them. A row is made of plain numbers
// that the caller lends, so that the largest number, and no `Option`, says that there is no entry.
ghost use Rattle.std.specs.Prelude.{◌≡◌, ℕ, ◌+◌, ◌-◌, ◌*◌, ◌^◌, ◌<◌, ◌≤◌, Bool, true, List, length, IfSome, Option, ◌≢◌};
ghost use Rattle.tally.specs.Order.{Order};

// Whoever brings a further tally shows that it is ordered, and that one more stretch leaves the smaller one smaller.
pub trait Tally {
    type Value: Copy;

    // The tally of no stretch.
    ghost zero: { Self.Value };

    // After one more stretch, from the start a, of the loss l.
    ghost added: { Self → Self.Value → ℕ → ℕ → Self.Value };

    ghost below: { Self.Value → Self.Value → Bool };

    // What stretches that end at t can come to.
    ghost fits: { ℕ → Self.Value → Type 0 };

    // How many numbers an entry of a row takes.
    ghost stride: { ℕ };

    // What entry i holds.
    ghost held: { List ℕ → ℕ → Option Self.Value };

    fn nothing(&self) -> Self::Value
        ensures { result ≡ zero };

    fn less(&self, a: Self::Value, b: Self::Value) -> bool
        ensures { result ≡ below a b };

    fn add(&self, v: Self::Value, start: u16, loss: u64) -> Self::Value
        requires { (fits 512 v) × (loss ≤ 2 ^ 49) }
        ensures { result ≡ added self.now v start loss };

    fn load(&self, rows: &[u64], i: usize) -> Option<Self::Value>
        requires { stride * (i + 1) ≤ length rows.now }
        ensures { result ≡ held rows.now i };

    fn put(&self, rows: &mut [u64], i: usize, v: Option<Self::Value>)
        requires { (stride * (i + 1) ≤ length rows.old) × (IfSome v (λ x. fits 512 x)) }
        ensures here { held rows.new i ≡ v }
        ensures others { (j : ℕ) → (j ≢ i) → held rows.new j ≡ held rows.old j };

    ghost order: { Order below };

    ghost strict: { (m : Self) (x y : Self.Value) (a l : ℕ) → below x y ≡ true → below (added m x a l) (added m y a l) ≡ true };

    ghost least: { fits 0 zero };

    ghost wider: { (a b : ℕ) (x : Self.Value) → a ≤ b → fits a x → fits b x };

    ghost grows: { (m : Self) (a b l : ℕ) (x : Self.Value) → a < b → l ≤ 2 ^ 40 * (b - a) → fits a x → fits b (added m x a l) };
}
