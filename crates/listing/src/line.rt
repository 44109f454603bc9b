ghost use Rattle.std.specs.Prelude.{◌≡◌, Some};
ghost use Rattle.listing.specs.Text.{line_text};
ghost use Rattle.listing.specs.Lines.{told};

use crate::play_error::PlayError;
use std::fmt;
use trace::call::TraceCall;

// What is told of one call.
// Numbers and no enums: a drain keeps a line for each of its calls, and any numbers can be told.
#[derive(Clone, Copy, PartialEq, Eq, Debug)]
pub struct Line {
    // the code of the call
    pub code: u8,
    // 0, or the number of the refusal
    pub answer: u8,
    pub value: u32,
}

impl Line {
    // The line of a call and its answer.
    pub fn new(call: TraceCall, answer: Result<u32, PlayError>) -> Line
        ensures { result ≡ told call answer }
    {
        let code = call.code();
        match answer {
            Ok(value) => Line {
                code,
                answer: 0,
                value,
            },
            Err(error) => Line {
                code,
                answer: error.number(),
                value: error.value(),
            },
        }
    }
}

impl fmt::Display for Line {
    ghost output = { λ l. Some (line_text l) };

    fn fmt<W: fmt::Write>(&self, f: &mut fmt::Formatter<W>) -> fmt::Result {
        let code = self.code;
        let answer = self.answer;
        let value = self.value;
        write!(f, "{code} {answer} {value}")
    }
}
