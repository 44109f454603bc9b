ghost use Rattle.std.specs.Prelude.{◌≡◌, Some};
ghost use Rattle.assembly.specs.Messages.{message_of, error_text};
ghost use Rattle.assembly.specs.declared.mistake.LineError.TheVariants as line_error;
ghost use Rattle.assembly.specs.Assembled.{located_at};
ghost use Rattle.assembly.specs.declared.mistake.AssemblyError.TheVariants.{NoMemory};

use crate::assembling::TEXT_MAX;
use std::alloc::AllocError;
use std::error::Error;
use std::fmt;

// What a line of a text can do wrong.
#[derive(Clone, Copy, PartialEq, Eq, Debug)]
pub enum Mistake {
    // the first word begins no statement
    UnknownWord,
    // what follows the first word does not fit it
    Arguments,
    // the plan has as many entries as a trace may have
    PlanFull,
    // there are as many calls as a trace may have
    CallsFull,
}

impl Mistake {
    // The mistake in words.
    pub fn message(self) -> &'static str
        ensures { result.now ≡ message_of self }
    {
        match self {
            Mistake::UnknownWord => "no statement begins with this word",
            Mistake::Arguments => "what follows the first word does not fit it",
            Mistake::PlanFull => "the plan has more than 256 entries",
            Mistake::CallsFull => "there are more than 1,000 calls",
        }
    }
}

// The mistake in words.
impl fmt::Display for Mistake {
    ghost output = { λ mistake. Some (message_of mistake) };

    fn fmt<W: fmt::Write>(&self, f: &mut fmt::Formatter<W>) -> fmt::Result {
        f.write_str(self.message())
    }
}

// Why a line was not taken.
#[derive(Clone, Copy)]
pub(crate) enum LineError {
    Mistake(Mistake),
    NoMemory,
}

impl LineError {
    // The error with the line's number.
    pub(crate) fn at(self, line: usize) -> AssemblyError
        ensures { result ≡ located_at line self }
    {
        match self {
            LineError::Mistake(mistake) => AssemblyError::Line { line, mistake },
            LineError::NoMemory => AssemblyError::NoMemory,
        }
    }
}

// By hand: thiserror's `From` has no contract that a clause could name.
impl From<Mistake> for LineError {
    ghost from_gives = { λ mistake error. error ≡ line_error.Mistake mistake };

    fn from(mistake: Mistake) -> LineError {
        LineError::Mistake(mistake)
    }
}

// Why a text gives no trace.
#[derive(Clone, Copy, PartialEq, Eq, Debug)]
pub enum AssemblyError {
    // the text is longer than `TEXT_MAX`
    TooLong,
    // a line is wrong; the first has number 1
    Line { line: usize, mistake: Mistake },
    NoMemory,
}

// The error in words, with the line and its mistake.
// By hand, and so `From` below: thiserror's `From` has no contract, and its `Display` none that a clause could name.
impl fmt::Display for AssemblyError {
    ghost output = { λ error. Some (error_text error) };

    fn fmt<W: fmt::Write>(&self, f: &mut fmt::Formatter<W>) -> fmt::Result {
        match self {
            AssemblyError::TooLong => write!(f, "the text has more than {TEXT_MAX} bytes"),
            AssemblyError::Line { line, mistake } => write!(f, "line {line}: {mistake}"),
            AssemblyError::NoMemory => write!(f, "there is no memory for the trace"),
        }
    }
}

impl Error for AssemblyError {}

impl From<AllocError> for AssemblyError {
    ghost from_gives = { λ _ error. error ≡ NoMemory };

    fn from(_error: AllocError) -> AssemblyError {
        AssemblyError::NoMemory
    }
}
