// The labeled optimal partitioning problem, and that the winning division solves it for every loss that holds readings.
#![tactic(auto)]

ghost use Rattle.labeled.specs.Examples.{Examples};
ghost use Rattle.labeled.specs.Problem.{WinnerSolves, WinnerKeptBetween, NoWinnerNoChoice, SolvedBy, RowSplits, OneLevel};

use leaves::model::Leaf;

// The winner's total is the least cost over all allowed gaps and all rows of whole levels that change only at chosen gaps.
pub fn winner_solves()
    ensures solves { WinnerSolves }
    ensures between { WinnerKeptBetween }
    ensures none { NoWinnerNoChoice }
{}

// The same of the readings that a loss holds, and of the table that it answers from.
pub fn problem_is_solved<L: Leaf>(leaf: &L)
    ensures { SolvedBy L.Leaf.price L.Leaf.lo L.Leaf.span (L.Leaf.readings leaf.now) (L.Loss.table leaf.now) }
{}

// A row of levels costs what its stretches cost, and has one level on each.
pub fn rows_split()
    ensures splits { RowSplits }
    ensures level { OneLevel }
{}

// The worked examples hold of the rules.
pub fn examples_hold()
    ensures { Examples }
{}
