// The sealed group: its phases, and the disk call of each.
#![tactic(auto)]

pub mod group;
pub mod making;
pub mod phase;
pub mod sealing;
pub mod turn;
pub mod under_way;
