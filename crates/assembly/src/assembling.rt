ghost use Rattle.assembly.specs.Assembled.{assembled, Assembles, Writes};
ghost use Rattle.assembly.specs.Told.{ReadsBack};

use crate::mistake::AssemblyError;
use crate::statements::take_line;
use std::alloc::Global;
use trace::call::Mode;
use trace::trace::Trace;

// The most bytes of a text.
pub const TEXT_MAX: usize = 1_048_576;

// The trace that the text describes. Each trace has a text that gives it.
pub fn assemble(heap: Global, text: &[u8]) -> Result<Trace, AssemblyError>
    ensures value { Assembles (assembled text.now) result }
    ensures told { ReadsBack text.now result }
{
    if text.len() > TEXT_MAX {
        return Err(AssemblyError::TooLong);
    }
    let mut trace = Trace::new(heap, Mode::Overlap, false);
    for (i, line) in text.split(|byte| *byte == b'\n').enumerate() {
        take_line(&mut trace, line).map_err(|error| error.at(i + 1))?;
    }
    Ok(trace)
}

// The bytes of the trace that the text describes: decoding them gives that trace.
pub fn assemble_bytes(heap: Global, text: &[u8]) -> Result<Vec<u8>, AssemblyError>
    ensures { Writes (assembled text.now) result }
{
    let trace = assemble(heap, text)?;
    Ok(trace.encode(heap)?)
}
