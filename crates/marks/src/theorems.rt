// What the definitions of laying and lifting mean: each theorem stands in a contract of a function that does nothing.
ghost use Rattle.marks.specs.Theorems.{OrderDecidesStanding, EveryTableStands, LaterMarksBeginLater, NoGapShared, LaidWhenLayable, LaidAddsOne, LiftedWhenOneBegins, LiftedTakesOne};

// The test in the type of a table says that its marks can stand together.
pub fn order_decides_standing()
    ensures { OrderDecidesStanding }
{}

// The marks of a table stand together, and are 64 at most.
pub fn every_table_stands()
    ensures { EveryTableStands }
{}

// Each mark ends before or where any later one begins.
pub fn later_marks_begin_later()
    ensures { LaterMarksBeginLater }
{}

// No two marks that stand together cover the same gap.
pub fn no_gap_is_shared()
    ensures { NoGapShared }
{}

// A mark is laid exactly when it is well formed, on the line and apart from the others, and fewer than 64 stand.
pub fn laid_when_layable()
    ensures { LaidWhenLayable }
{}

// Laying adds the one mark, and leaves the others in their order.
pub fn laying_adds_one()
    ensures { LaidAddsOne }
{}

// A mark is lifted exactly when one begins there.
pub fn lifted_when_one_begins()
    ensures { LiftedWhenOneBegins }
{}

// Lifting takes the mark that begins there, and leaves the others in their order.
pub fn lifting_takes_one()
    ensures { LiftedTakesOne }
{}
