// The play of a whole trace.
ghost use Rattle.std.specs.Prelude.{◌≡◌, [], IfOk};
ghost use Rattle.trace.specs.Traces.{trace_of};
ghost use Rattle.play.specs.Plays.{blank_disk, mode_lines, trace_lines};

use crate::blank::blank_held;
use crate::on_disk::play_on;
use listing::line::Line;
use retry::Retry;
use std::alloc::{AllocError, Global};
use trace::call::{Mode, TraceCall};
use trace::trace::Trace;

// A line for each call of a list of any length, over a held disk of 64 zero blocks on which every call is good.
pub fn play_list(heap: Global, mode: Mode, calls: &[TraceCall]) -> Result<Vec<Line>, AllocError>
    ensures { IfOk result (λ lines. lines.items ≡ mode_lines mode 1 (blank_disk []) calls.now) }
{
    let mut lines = Vec::with_capacity(heap, calls.len())?;
    let disk = blank_held(heap, &[])?;
    play_on(disk, mode, calls, &mut lines)?;
    Ok(lines)
}

// A line for each call of the trace, over a held disk of 64 zero blocks, under a retry layer or not.
pub fn play(heap: Global, trace: &Trace) -> Result<Vec<Line>, AllocError>
    ensures { IfOk result (λ lines. lines.items ≡ trace_lines (trace_of trace.now)) }
{
    let mut lines = Vec::with_capacity(heap, trace.calls.len())?;
    let disk = blank_held(heap, &trace.plan)?;
    if trace.retry {
        play_on(Retry::new(disk), trace.mode, &trace.calls, &mut lines)?;
    } else {
        play_on(disk, trace.mode, &trace.calls, &mut lines)?;
    }
    Ok(lines)
}
