// The ordered write-back cache over any bench disk, under any precedence.
#![tactic(auto)]

pub mod calls;
pub mod cold;
pub mod live;
pub mod opening;
pub mod reads;
pub mod steps;
