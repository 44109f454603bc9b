// Bench disks in memory: one that holds writes loose, one that settles each at once.
#![tactic(auto)]

mod blocks;
pub mod held;
mod laying;
mod loose;
mod parts;
mod plan;
pub mod through;
pub mod unusable;
