// Traces: how a cache is set up, a plan of faults and a list of calls, as values and as bytes.
#![tactic(auto)]

pub mod building;
pub mod call;
pub mod decoding;
pub mod encoding;
mod sections;
pub mod trace;
