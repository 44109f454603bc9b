// The ordered write-back cache as definitions, and the laws of its runs, proved before any code runs it.
#![tactic(auto)]

ghost use Rattle.ordered_law.specs.Runs.{LawfulRuns, LawfulOrders};

// Along every run of the cache its laws hold: a cut keeps a closed set, a drain ends, the tally is true, and the bounds.
pub fn lawful_runs()
    ensures { LawfulRuns }
{}

// Overlap and line are lawful precedences.
pub fn lawful_orders()
    ensures { LawfulOrders }
{}
