// What each step of a play wrote: a cache is followed through the calls that it accepted.
#![tactic(auto)]

pub mod in_journal;
pub mod in_order;
pub mod watch;
