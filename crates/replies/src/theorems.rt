// What the definition of a reply's text means: the theorem stands in a contract.
ghost use Rattle.replies.specs.Theorems.{RepliesDiffer};

// Different replies have different texts.
pub fn replies_differ()
    ensures { RepliesDiffer }
{}
