// Which loss measures the stretches of a line.
#[derive(Clone, Copy, PartialEq, Eq, Debug)]
pub enum LossKind {
    Squares,
    Distances,
    Votes,
}
