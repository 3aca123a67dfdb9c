// Readings under the loss that the user chose.
ghost use Rattle.std.specs.Prelude.{◌≡◌, []};
ghost use Rattle.leaves.specs.Taking.{gathered, after_all};
ghost use Rattle.survey.specs.Held.{table_of_held, readings_of, lowest_of, span_of, kind_of, sound_held};

use fault::Fault;
use leaves::distances::Distances;
use leaves::gather::gather;
use leaves::kind::LossKind;
use leaves::squares::Squares;
use leaves::votes::Votes;
use loss::model::Loss;

#[derive(Drop)]
pub enum Held {
    BySquares(Squares),
    ByDistances(Distances),
    ByVotes(Votes),
}

impl Held {
    // No readings, under the loss of that kind.
    pub fn new(kind: LossKind) -> Held
        ensures kind { kind_of result ≡ kind }
        ensures readings { readings_of result ≡ [] }
    {
        match kind {
            LossKind::Squares => Held::BySquares(Squares::new()),
            LossKind::Distances => Held::ByDistances(Distances::new()),
            LossKind::Votes => Held::ByVotes(Votes::new()),
        }
    }

    // Takes the readings in their order, all of them or none.
    pub fn gather(&mut self, xs: &[i32]) -> Result<(), Fault>
        ensures result { result ≡ gathered (lowest_of self.old) (span_of self.old) (readings_of self.old) xs.now }
        ensures readings { readings_of self.new ≡ after_all (lowest_of self.old) (span_of self.old) (readings_of self.old) xs.now }
        ensures kind { kind_of self.new ≡ kind_of self.old }
    {
        match self {
            Held::BySquares(leaf) => gather(leaf, xs),
            Held::ByDistances(leaf) => gather(leaf, xs),
            Held::ByVotes(leaf) => gather(leaf, xs),
        }
    }
}

impl Loss for Held {
    ghost table = { table_of_held };

    ghost sound = { sound_held };

    fn length(&self) -> u16 {
        match self {
            Held::BySquares(leaf) => leaf.length(),
            Held::ByDistances(leaf) => leaf.length(),
            Held::ByVotes(leaf) => leaf.length(),
        }
    }

    fn ceiling(&self) -> u64 {
        match self {
            Held::BySquares(leaf) => leaf.ceiling(),
            Held::ByDistances(leaf) => leaf.ceiling(),
            Held::ByVotes(leaf) => leaf.ceiling(),
        }
    }

    fn stretch(&self, a: u16, b: u16) -> Result<u64, Fault> {
        match self {
            Held::BySquares(leaf) => leaf.stretch(a, b),
            Held::ByDistances(leaf) => leaf.stretch(a, b),
            Held::ByVotes(leaf) => leaf.stretch(a, b),
        }
    }
}
