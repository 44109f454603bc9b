// Plays the calls of a trace over one disk, by the trace's mode.
ghost use Rattle.std.specs.Prelude.{◌≡◌, ◌≤◌, ◌++◌, OnOk};
ghost use Rattle.disk.specs.Medium.{size};
ghost use Rattle.play.specs.Plays.{mode_lines};

use crate::in_journal::journaled;
use crate::in_order::in_order;
use crate::player::play_calls;
use disk::disk::JoiningDisk;
use listing::line::Line;
use precedence::{Line as InLine, Overlap};
use std::alloc::AllocError;
use trace::call::{Mode, TraceCall};

// Adds the lines of the calls, over a disk whose writes join.
pub(crate) fn play_on<D: JoiningDisk + Drop>(
    disk: D,
    mode: Mode,
    calls: &[TraceCall],
    lines: &mut Vec<Line>,
) -> Result<(), AllocError>
    requires room { 10 ≤ size (D.Disk.medium disk) }
    ensures { OnOk result (lines.new.items ≡ lines.old.items ++ mode_lines mode D.Disk.attempts (D.Disk.medium disk) calls.now) }
{
    match mode {
        Mode::Overlap => play_calls(in_order(disk, Overlap), calls, lines),
        Mode::Line => play_calls(in_order(disk, InLine), calls, lines),
        Mode::Journaled => play_calls(journaled(disk), calls, lines),
    }
}
