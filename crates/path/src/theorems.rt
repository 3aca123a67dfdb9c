// What the path says of cuts: each theorem stands in a contract.
ghost use Rattle.path.specs.Cuts.{PathNamesTheCut, StepsNameEveryCut, NoCountNoCut};

// At every penalty the path has the count and the loss of the division that wins there, and it has none exactly where none is allowed.
pub fn path_names_every_cut()
    ensures at { PathNamesTheCut }
    ensures steps { StepsNameEveryCut }
    ensures none { NoCountNoCut }
{}
