// Traces from text: a statement a line, with comments.
#![tactic(auto)]

mod arguments;
pub mod assembling;
mod keywords;
pub mod mistake;
mod numbers;
mod statements;
mod words;
