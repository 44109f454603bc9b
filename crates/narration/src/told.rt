ghost use Rattle.std.specs.Prelude.{Some};
ghost use Rattle.narration.specs.Words.{told_text};

use crate::accepted::Accepted;
use crate::asked::Asked;
use crate::deed::Deed;
use crate::refused::Refused;
use listing::line::Line;
use std::fmt;
use trace::call::{Mode, TraceCall};

// A call of a play and the line that it gave, to be told in words.
// By the line's numbers and not by an Answer: a line may hold any numbers.
#[derive(Clone, Copy)]
pub struct Told {
    pub mode: Mode,
    pub call: TraceCall,
    pub line: Line,
    // what the call wrote, if it is a step that wrote
    pub deed: Option<Deed>,
}

impl fmt::Display for Told {
    ghost output = { λ t. Some (told_text t.mode t.call t.line t.deed) };

    fn fmt<W: fmt::Write>(&self, f: &mut fmt::Formatter<W>) -> fmt::Result {
        let asked = Asked { call: self.call };
        if self.line.answer == 0 {
            let accepted = Accepted {
                mode: self.mode,
                call: self.call,
                value: self.line.value,
                deed: self.deed,
            };
            write!(f, "{asked}: {accepted}")
        } else {
            let refused = Refused { line: self.line };
            write!(f, "{asked}: {refused}")
        }
    }
}
