// Cases of vectors/, played in the gate.
#![tactic(auto)]

#[cfg(test)]
mod cases;
#[cfg(test)]
mod playing;
