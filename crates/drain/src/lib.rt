// A full table of 32 writes, drained again and again: the cache and its disk at work, with no trace to decode and no text to write.
#![tactic(auto)]

ghost use Rattle.std.specs.Prelude.{◌≡◌, ◌*◌, ◌<◌, ◌≤◌, min, map, length, IfOk, filter};
ghost use Rattle.std.specs.List.{range_with_len};
ghost use Rattle.drain.specs.Drains.{drain_call, drain_calls, is_written, drained};

use listing::line::Line;
use play::play::play_list;
use std::alloc::{AllocError, Global};
use trace::call::{Mode, TraceCall};

// A round fills the table and steps until it is empty under every precedence.
const ROUND: usize = 128;

const WRITES: usize = 32;

const MARKS: usize = 64;

// Tickets have two bytes.
pub const ROUNDS_MAX: u16 = 1000;

// The i-th call of the rounds. The casts are proved to lose nothing; a try_from would ask for an answer to numbers that never come.
fn call_at(i: usize) -> TraceCall
    requires { i < 128000 }
    ensures { result ≡ drain_call i }
{
    let turn = i % ROUND;
    if turn < WRITES {
        TraceCall::Begin {
            place: turn as u16,
            fill: 3,
        }
    } else if turn < MARKS {
        TraceCall::Finish {
            ticket: (MARKS * (i / ROUND) + (turn - 31)) as u16,
        }
    } else {
        TraceCall::Step
    }
}

fn calls(heap: Global, rounds: usize) -> Result<Vec<TraceCall>, AllocError>
    requires { rounds ≤ 1000 }
    ensures { IfOk result (λ v. v.items ≡ drain_calls rounds) }
{
    (0..ROUND * rounds).map(call_at).collect(heap)
}

// Whether the line tells of a step that wrote.
fn is_written(line: &Line) -> bool
    ensures { result ≡ is_written line.now }
{
    line.code == 5 && line.answer == 0 && line.value == 1
}

// How many of the lines do.
fn written(lines: &[Line]) -> usize
    ensures { result ≡ length (filter is_written lines.now) }
{
    lines.iter().filter(|line| is_written(line)).count()
}

// How many writes went to the disk in so many rounds, at most 1,000, on a new cache of the mode.
pub fn drain(heap: Global, mode: Mode, rounds: u16) -> Result<usize, AllocError>
    ensures { IfOk result (λ n. n ≡ drained mode (min rounds 1000)) }
{
    let calls = calls(heap, usize::from(rounds.min(ROUNDS_MAX)))?;
    let lines = play_list(heap, mode, &calls)?;
    Ok(written(&lines))
}
