// Examples of the disks and of the retry layer.
#![tactic(auto)]

#[cfg(test)]
mod cuts;
#[cfg(test)]
mod layers;
#[cfg(test)]
mod making;
#[cfg(test)]
mod refusals;
#[cfg(test)]
mod tools;
