// The player and the drain for C and Rust: each export calls its namesake of `capi`, and promises the same.
#![tactic(auto)]

ghost use Rattle.capi.specs.Buffers.{Written, Drained};

use capi::Play;
use std::alloc::Global;

// What the player writes for the input goes to the front of the buffer, if it fits; else the buffer stays.
#[unsafe(no_mangle)]
pub extern "C" fn hecklemaroon_play(heap: Global, input: &[u8], buffer: &mut [u8]) -> Play
    ensures { Written input.now buffer.old result.code result.length buffer.new }
{
    capi::hecklemaroon_play(heap, input, buffer)
}

// Fills a table of 32 writes and drains it in rounds, at most 1,000, under overlap or line; the length says how many writes went to the disk.
#[unsafe(no_mangle)]
pub extern "C" fn hecklemaroon_drain(heap: Global, in_line: bool, rounds: u16) -> Play
    ensures { Drained in_line rounds result.code result.length }
{
    capi::hecklemaroon_drain(heap, in_line, rounds)
}
