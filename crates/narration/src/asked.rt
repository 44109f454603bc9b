ghost use Rattle.std.specs.Prelude.{Some};
ghost use Rattle.narration.specs.Words.{asked_text};

use std::fmt;
use trace::call::TraceCall;

// What a call asks for.
#[derive(Clone, Copy)]
pub(crate) struct Asked {
    pub call: TraceCall,
}

impl fmt::Display for Asked {
    ghost output = { λ a. Some (asked_text a.call) };

    fn fmt<W: fmt::Write>(&self, f: &mut fmt::Formatter<W>) -> fmt::Result {
        match self.call {
            TraceCall::Begin { place, fill: _ } => write!(f, "begin place {place}"),
            TraceCall::Finish { ticket } => write!(f, "finish ticket {ticket}"),
            TraceCall::Withdraw { ticket } => write!(f, "withdraw ticket {ticket}"),
            TraceCall::Read { place } => write!(f, "read place {place}"),
            TraceCall::Step => write!(f, "step"),
            TraceCall::Seal => write!(f, "seal"),
            TraceCall::Restart { choice } => write!(f, "restart, choice {choice}"),
            TraceCall::Cut { choice } => write!(f, "cut, choice {choice}"),
        }
    }
}
