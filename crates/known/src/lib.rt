// Cases with known outcomes, of every layer, as one table that the definitions give by computing.
#![tactic(auto)]

ghost use Rattle.known.specs.Known.{KnownOutcomes};

pub fn known_outcomes()
    ensures { KnownOutcomes }
{}
