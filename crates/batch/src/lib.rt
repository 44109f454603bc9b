// At most eight writes, in order: the open writes of a journaled cache, the collected ones, and those of a sealed group.
#![tactic(auto)]

pub mod batch;
pub mod entry;
pub mod rows;
