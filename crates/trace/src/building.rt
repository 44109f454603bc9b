ghost use Rattle.std.specs.Prelude.{◌≡◌};
ghost use Rattle.trace.specs.Building.{bare, with_entry, with_call, Grows, entries_in, calls_in};
ghost use Rattle.trace.specs.Traces.{trace_of};
ghost use Rattle.trace.specs.declared.building.GrowError.TheVariants.{NoMemory};

use crate::call::{Mode, TraceCall};
use crate::trace::{CALLS_MAX, PLAN_MAX, Trace};
use std::alloc::{AllocFailed, Global};

// Why a trace takes no more. It is left as it was.
#[derive(Clone, Copy, PartialEq, Eq, Debug)]
pub enum GrowError {
    // the plan or the list has as many entries as a trace may have
    Full,
    NoMemory,
}

// What was refused is dropped.
// By hand: thiserror's `From` has no contract that a clause could name.
impl<T: Drop> From<AllocFailed<T>> for GrowError {
    ghost from_gives = { λ _ e. e ≡ NoMemory };

    fn from(_refused: AllocFailed<T>) -> GrowError {
        GrowError::NoMemory
    }
}

impl Trace {
    // A trace with no plan and no call.
    pub fn new(heap: Global, mode: Mode, retry: bool) -> Trace
        ensures { trace_of result ≡ bare mode retry }
    {
        Trace {
            mode,
            retry,
            plan: Vec::new(heap),
            calls: Vec::new(heap),
        }
    }

    // One more entry of the plan.
    pub fn push_entry(&mut self, bad: bool) -> Result<(), GrowError>
        ensures { Grows entries_in 256 (with_entry bad) (trace_of self.old) result (trace_of self.new) }
    {
        if self.plan.len() >= PLAN_MAX {
            return Err(GrowError::Full);
        }
        self.plan.push(bad.into())?;
        Ok(())
    }

    // One more call.
    pub fn push_call(&mut self, call: TraceCall) -> Result<(), GrowError>
        ensures { Grows calls_in 1000 (with_call call) (trace_of self.old) result (trace_of self.new) }
    {
        if self.calls.len() >= CALLS_MAX {
            return Err(GrowError::Full);
        }
        self.calls.push(call)?;
        Ok(())
    }
}
