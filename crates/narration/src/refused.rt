ghost use Rattle.std.specs.Prelude.{◌≡◌, Some};
ghost use Rattle.narration.specs.Words.{reason_of, refused_text};

use listing::line::Line;
use std::fmt;

// The number of a disk's fault.
const FAULT: u8 = 7;

// Why a call was refused, by the number of the refusal; 15 is the only other number that a play gives.
fn reason(number: u8) -> &'static str
    ensures { result.now ≡ reason_of number }
{
    match number {
        1 => "the bytes are not one block",
        2 => "the place is not one of the cache's",
        3 => "the place has an open write",
        4 => "there is no room for one more write",
        5 => "too few marks are left",
        6 => "no open write has the ticket",
        8 => "nothing is collected",
        9 => "a group is under way",
        10 => "the last group number is used",
        _ => "only the journaled cache seals",
    }
}

// A call that was refused.
#[derive(Clone, Copy)]
pub(crate) struct Refused {
    pub line: Line,
}

impl fmt::Display for Refused {
    ghost output = { λ r. Some (refused_text r.line) };

    fn fmt<W: fmt::Write>(&self, f: &mut fmt::Formatter<W>) -> fmt::Result {
        let number = self.line.answer;
        if number == FAULT {
            let tries = self.line.value;
            write!(f, "failed after {tries} tries")
        } else {
            let reason = reason(number);
            write!(f, "refused {number}, {reason}")
        }
    }
}
