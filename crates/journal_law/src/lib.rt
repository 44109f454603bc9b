// The laws of the journal volume and of the journaled cache.
#![tactic(auto)]

pub mod laws;
