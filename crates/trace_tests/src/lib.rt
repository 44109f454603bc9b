// Tests of traces and of texts, apart from their crates, which would be proved again with them.
#![tactic(auto)]

#[cfg(test)]
mod texts;
#[cfg(test)]
mod traces;
