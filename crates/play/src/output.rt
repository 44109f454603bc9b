// What the player writes for an input.
ghost use Rattle.std.specs.Prelude.{◌≡◌, IfOk, string_bytes};
ghost use Rattle.play.specs.Plays.{output_for};

use crate::play::play;
use listing::text::render;
use std::alloc::{AllocError, Global};
use trace::decoding::{DecodeError, decode};

// The listing of the trace in the input, or the line 14 alone where the input is no trace.
pub fn output(heap: Global, input: &[u8]) -> Result<String, AllocError>
    ensures { IfOk result (λ s. string_bytes s ≡ output_for input.now) }
{
    match decode(heap, input) {
        Ok(trace) => render(heap, &play(heap, &trace)?),
        Err(DecodeError::Malformed) => String::from_str(heap, "14\n"),
        Err(DecodeError::NoMemory) => Err(AllocError),
    }
}
