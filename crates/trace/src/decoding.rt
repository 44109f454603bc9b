ghost use Rattle.std.specs.Prelude.{◌≡◌, IfOk, vec_items};
ghost use Rattle.trace.specs.Format.{decode as decoded, encode as encoded, canonical as canonical_form, calls_of};
ghost use Rattle.trace.specs.Traces.{trace_of, Finds, refusal_number};
ghost use Rattle.trace.specs.declared.decoding.DecodeError.TheVariants.{NoMemory};

use crate::call::{CALL_BYTES, TraceCall};
use crate::sections::{are_entries, split};
use crate::trace::Trace;
use std::alloc::{AllocError, AllocFailed, Global};

// Why bytes give no trace.
#[derive(Clone, Copy, PartialEq, Eq, Debug)]
pub enum DecodeError {
    // a byte is out of its range, missing or too many
    Malformed,
    // there is no memory for the trace
    NoMemory,
}

impl DecodeError {
    // The number of the refusal; want of memory has none.
    pub fn number(self) -> Option<u8>
        ensures { result ≡ refusal_number self }
    {
        match self {
            DecodeError::Malformed => Some(14),
            DecodeError::NoMemory => None,
        }
    }
}

// By hand, and so the next: thiserror's `From` has no contract that a clause could name.
impl From<AllocError> for DecodeError {
    ghost from_gives = { λ _ e. e ≡ NoMemory };

    fn from(_error: AllocError) -> DecodeError {
        DecodeError::NoMemory
    }
}

impl<T: Drop> From<AllocFailed<T>> for DecodeError {
    ghost from_gives = { λ _ e. e ≡ NoMemory };

    fn from(_refused: AllocFailed<T>) -> DecodeError {
        DecodeError::NoMemory
    }
}

// The calls of a section's bytes.
fn calls(heap: Global, bytes: &[u8]) -> Result<Vec<TraceCall>, DecodeError>
    ensures { Finds vec_items (calls_of bytes.now) result }
{
    let (coded, rest) = bytes.as_chunks::<CALL_BYTES>();
    if !rest.is_empty() {
        return Err(DecodeError::Malformed);
    }
    let mut calls = Vec::new(heap);
    // A `for` with `?`: the clause says which item is refused.
    for code in coded {
        calls.push(TraceCall::try_from(*code)?)?;
    }
    Ok(calls)
}

// The trace in the bytes. Encoded again, it gives the bytes but for those that are ignored.
pub fn decode(heap: Global, bytes: &[u8]) -> Result<Trace, DecodeError>
    ensures value { Finds trace_of (decoded bytes.now) result }
    ensures canonical { IfOk result (λ t. canonical_form bytes.now ≡ encoded (trace_of t)) }
{
    let sections = split(bytes).ok_or(DecodeError::Malformed)?;
    if !are_entries(sections.plan) {
        return Err(DecodeError::Malformed);
    }
    let calls = calls(heap, sections.calls)?;
    let plan = Vec::from_slice(heap, sections.plan)?;
    Ok(Trace {
        mode: sections.mode,
        retry: sections.retry,
        plan,
        calls,
    })
}
