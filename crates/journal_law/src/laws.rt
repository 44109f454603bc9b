ghost use Rattle.journal_law.specs.Laws.{HeadExact, LawfulRuns, RecoveryIdles, RecoveryEnds};
ghost use Rattle.journal_law.specs.Known.{WorkedRun};

// A block is a head exactly where it has a head's layout.
pub fn head_is_exact()
    ensures { HeadExact }
{}

// Every run of the journaled cache obeys the laws: recovery is atomic and succeeds, a group leaves, a read shows the newest write.
pub fn runs_are_lawful()
    ensures { LawfulRuns }
{}

// A recovery that succeeds, on whatever volume, leaves it idle.
pub fn recovery_idles()
    ensures { RecoveryIdles }
{}

// Every recovery ends, and is broken off by faults alone.
pub fn recovery_ends()
    ensures { RecoveryEnds }
{}

// A whole run: the head lost and standing, the commit, and the group's last step.
pub fn worked_run()
    ensures { WorkedRun }
{}
