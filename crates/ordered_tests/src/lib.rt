// Examples of the ordered cache.
#![tactic(auto)]

#[cfg(test)]
mod begins;
#[cfg(test)]
mod ends;
pub mod mixed;
#[cfg(test)]
mod own_disk;
#[cfg(test)]
mod reads;
#[cfg(test)]
mod steps;
#[cfg(test)]
mod tools;
