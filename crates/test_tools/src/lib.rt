// What the tests of disks and caches share.
#![tactic(auto)]

pub mod checks;
pub mod disks;
pub mod faults;
