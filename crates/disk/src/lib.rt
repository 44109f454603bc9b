// A block disk that may lose its newest writes when power fails: what it means, and the traits of its implementations.
#![tactic(auto)]

pub mod disk;
pub mod error;
