// A journal volume over any bench disk: format and recovery.
#![tactic(auto)]

pub mod cold;
mod recovery;
