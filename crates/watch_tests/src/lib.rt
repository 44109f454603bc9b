// Plays told in words, with what each step wrote.
#![tactic(auto)]

#[cfg(test)]
mod stories;
