// The journaled write-back cache over any bench disk.
#![tactic(auto)]

pub mod calls;
pub mod live;
pub mod opening;
pub mod reads;
pub mod steps;
