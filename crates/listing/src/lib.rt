// The listing of a play: a line for each call.
#![tactic(auto)]

pub mod answer;
pub mod line;
pub mod play_error;
pub mod text;
