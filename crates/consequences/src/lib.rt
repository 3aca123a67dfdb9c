// What follows from the law over runs alone, whatever code keeps it: each theorem stands in a contract.
#![tactic(auto)]

ghost use Rattle.consequences.specs.Cuts.{SameCutSameDivision, ReopenedAndCutAgain};
ghost use Rattle.consequences.specs.Paths.{LaidAndUnmarkedAgain};
ghost use Rattle.consequences.specs.Words.{LaidMarkStands, UnmarkedStandsNoMore, ReopenedIsNotCut, ShortestLasts, FreshLineIsLawful, FreshLineIsNotCut};

// The same marks, shortest stretch and cut make the same division, however they came about.
pub fn same_cut_same_division()
    ensures same { SameCutSameDivision }
    ensures again { ReopenedAndCutAgain }
{}

// A path outlasts a mark that was laid and unmarked again.
pub fn path_outlasts_a_mark()
    ensures { LaidAndUnmarkedAgain }
{}

// The words of a history mean what they should on small ones.
pub fn words_of_a_history()
    ensures laid { LaidMarkStands }
    ensures unmarked { UnmarkedStandsNoMore }
    ensures reopened { ReopenedIsNotCut }
    ensures shortest { ShortestLasts }
{}

// The law can hold, and can fail.
pub fn law_says_something()
    ensures holds { FreshLineIsLawful }
    ensures fails { FreshLineIsNotCut }
{}
