// The table of an ordered write-back cache: 32 rows that hold versions of blocks, and scans over them.
#![tactic(auto)]

pub mod held;
pub mod rows;
pub mod scan;
pub mod tally;
