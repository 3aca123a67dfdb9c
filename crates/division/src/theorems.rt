// What the definitions of divisions, marks and the winner mean: each theorem stands in a contract.
ghost use Rattle.division.specs.Theorems.{AllListed, AllowedTested, CandidateTested, BeatsTested, LaterInWords, WinnerWins, OneWins, WinnerCostsLeast, AllowedByStretch};

// The list of all divisions is whole, and the tests say what the relations say.
pub fn definitions_agree()
    ensures listed { AllListed }
    ensures allowed { AllowedTested }
    ensures candidate { CandidateTested }
    ensures beats { BeatsTested }
    ensures later { LaterInWords }
{}

// The winner is allowed, unbeaten, the only such division, and costs no more than any allowed one; there is none exactly where
// nothing is allowed.
pub fn winner_is_the_best_of_all()
    ensures wins { WinnerWins }
    ensures one { OneWins }
    ensures least { WinnerCostsLeast }
{}

// Being allowed is a condition on each stretch by itself.
pub fn allowed_by_stretch()
    ensures { AllowedByStretch }
{}
