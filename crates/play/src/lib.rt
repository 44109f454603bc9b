// Plays a trace and tells what each call answered.
#![tactic(auto)]

mod blank;
mod in_journal;
mod in_order;
mod on_disk;
pub mod output;
pub mod play;
mod player;
mod volumes;
