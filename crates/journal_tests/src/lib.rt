// Examples of the journal volume and of the journaled cache.
#![tactic(auto)]

#[cfg(test)]
mod begins;
#[cfg(test)]
mod faults;
#[cfg(test)]
mod groups;
#[cfg(test)]
mod mixed;
#[cfg(test)]
mod reads;
#[cfg(test)]
mod recoveries;
#[cfg(test)]
mod tools;
