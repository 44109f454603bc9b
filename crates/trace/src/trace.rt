ghost use Rattle.std.specs.Prelude.{◌≡◌, ◌≤◌, true, vec_len};
ghost use Rattle.trace.specs.Format.{all_entries};

use crate::call::{Mode, TraceCall};

// The most entries of a plan.
pub const PLAN_MAX: usize = 256;

// The most calls of a trace.
pub const CALLS_MAX: usize = 1000;

// The calls to be played, and what they are played on.
#[derive(Drop)]
pub struct Trace {
    pub mode: Mode,
    // whether a retry layer stands on the disk
    pub retry: bool,
    // an entry for each call of the disk: 0 good, 1 bad; bytes, since a disk is given bytes and refuses any other
    pub plan: Vec<u8>,
    pub calls: Vec<TraceCall>,
    ghost short: { vec_len plan ≤ 256 },
    ghost planned: { all_entries plan.items ≡ true },
    ghost listed: { vec_len calls ≤ 1000 },
}
