ghost use Rattle.std.specs.Prelude.{Some};
ghost use Rattle.narration.specs.Words.{accepted_text};

use crate::deed::Deed;
use std::fmt;
use trace::call::{Mode, TraceCall};

// The answers of a step; any other is that it was blocked.
const IDLE: u32 = 0;

const WRITTEN: u32 = 1;

const FLUSHED: u32 = 2;

// What an accepted call answered.
#[derive(Clone, Copy)]
pub(crate) struct Accepted {
    pub mode: Mode,
    pub call: TraceCall,
    pub value: u32,
    // what a step wrote, if that is known
    pub deed: Option<Deed>,
}

impl fmt::Display for Accepted {
    ghost output = { λ a. Some (accepted_text a.mode a.call a.value a.deed) };

    fn fmt<W: fmt::Write>(&self, f: &mut fmt::Formatter<W>) -> fmt::Result {
        let value = self.value;
        match self.call {
            TraceCall::Begin { place: _, fill: _ } => write!(f, "ticket {value}"),
            TraceCall::Finish { ticket: _ } => write!(f, "mark {value}"),
            TraceCall::Withdraw { ticket: _ } => write!(f, "gone"),
            TraceCall::Read { place: _ } => write!(f, "first byte {value}"),
            TraceCall::Step => match (value, self.deed) {
                (IDLE, _) => write!(f, "idle"),
                (WRITTEN, Some(deed)) => write!(f, "wrote {deed}"),
                (WRITTEN, None) => write!(f, "wrote a block"),
                (FLUSHED, _) => write!(f, "flushed"),
                _ => write!(f, "blocked"),
            },
            TraceCall::Seal => write!(f, "group {value}"),
            TraceCall::Restart { choice: _ } => write!(f, "cut and started again"),
            TraceCall::Cut { choice: _ } => match self.mode {
                Mode::Journaled => write!(f, "recovered group {value}"),
                Mode::Overlap | Mode::Line => write!(f, "opened again"),
            },
        }
    }
}
