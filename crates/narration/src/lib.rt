// A play told in words.
#![tactic(auto)]

mod accepted;
mod asked;
pub mod deed;
mod refused;
pub mod told;
