// The player for callers that hold a buffer: a trace in, its listing into the caller's buffer; and a drain of a full table, for timing.
#![tactic(auto)]

ghost use Rattle.capi.specs.Buffers.{Written, Drained};

use drain::drain;
use play::output::output;
use std::alloc::{AllocError, Global};
use trace::call::Mode;

// The codes are numbers because C reads them.
// The listing is in the buffer.
const DONE: u32 = 0;
// The buffer is too short; the length says what is needed.
const SHORT: u32 = 1;
// There is no memory for the play.
const NO_MEMORY: u32 = 2;

#[repr(C)]
#[derive(Clone, Copy)]
pub struct Play {
    pub code: u32,
    pub length: usize,
}

// What the player writes for the input goes to the front of the buffer, if it fits; else the buffer stays.
pub fn hecklemaroon_play(heap: Global, input: &[u8], buffer: &mut [u8]) -> Play
    ensures { Written input.now buffer.old result.code result.length buffer.new }
{
    let Ok(text) = output(heap, input) else {
        return Play {
            code: NO_MEMORY,
            length: 0,
        };
    };
    let bytes = text.as_bytes();
    let length = bytes.len();
    if length > buffer.len() {
        return Play {
            code: SHORT,
            length,
        };
    }
    buffer[..length].copy_from_slice(bytes);
    Play { code: DONE, length }
}

// Fills a table of 32 writes and drains it in rounds, at most 1,000, under overlap or line (a flag, since C calls it); the length says how many writes went to the disk.
pub fn hecklemaroon_drain(heap: Global, in_line: bool, rounds: u16) -> Play
    ensures { Drained in_line rounds result.code result.length }
{
    let mode = if in_line { Mode::Line } else { Mode::Overlap };
    match drain(heap, mode, rounds) {
        Ok(length) => Play { code: DONE, length },
        Err(AllocError) => Play {
            code: NO_MEMORY,
            length: 0,
        },
    }
}
