ghost use Rattle.std.specs.Prelude.{◌≡◌, ◌++◌, IfOk, Some, OnOk};
ghost use Rattle.std.specs.List.{flat_map};
ghost use Rattle.trace.specs.Calls.{call_bytes};
ghost use Rattle.trace.specs.Format.{decode as decoded, encode as encoded};
ghost use Rattle.trace.specs.Traces.{trace_of};

use crate::call::{CALL_BYTES, TraceCall};
use crate::sections::OPTIONS;
use crate::trace::Trace;
use std::alloc::{AllocError, Global};

// Appends the bytes of the calls.
fn push_calls(bytes: &mut Vec<u8>, calls: &[TraceCall]) -> Result<(), AllocError>
    ensures { OnOk result (bytes.new.items ≡ bytes.old.items ++ flat_map call_bytes calls.now) }
{
    for call in calls {
        let encoded: [u8; CALL_BYTES] = (*call).into();
        bytes.extend_from_slice(&encoded)?;
    }
    Ok(())
}

impl Trace {
    // The bytes of the trace, which are decoded to it again.
    pub fn encode(&self, heap: Global) -> Result<Vec<u8>, AllocError>
        ensures value { IfOk result (λ v. v.items ≡ encoded (trace_of self.now)) }
        ensures read_back { IfOk result (λ v. decoded v.items ≡ Some (trace_of self.now)) }
    {
        // Neither cast loses anything: there are at most 256 entries and 1,000 calls, the type's invariant.
        let options = [OPTIONS, self.mode.into(), self.retry.into()];
        let mut bytes = Vec::from_slice(heap, &options)?;
        bytes.extend_from_slice(&(self.plan.len() as u16).to_le_bytes())?;
        bytes.extend_from_slice(&self.plan)?;
        bytes.extend_from_slice(&(self.calls.len() as u16).to_le_bytes())?;
        push_calls(&mut bytes, &self.calls)?;
        Ok(bytes)
    }
}
