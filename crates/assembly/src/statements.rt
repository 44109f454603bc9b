// Lines that are taken into a trace.
ghost use Rattle.std.specs.Prelude.{◌≡◌};
ghost use Rattle.trace.specs.Traces.{trace_of};
ghost use Rattle.assembly.specs.Words.{words};
ghost use Rattle.assembly.specs.Statements.{refusal_of, entered, obeyed, stated, uncommented, Comes};

use crate::arguments::{call_with, mode_in, retry_in};
use crate::keywords::{Keyword, entry_named, keyword_named};
use crate::mistake::{LineError, Mistake};
use crate::words::first_word;
use trace::building::GrowError;
use trace::trace::Trace;

// Why a call of the trace's refused, with the mistake where the trace is full.
// No `From`: either call has one list to fill, so its error has one `Full`, and only the caller knows which mistake that is.
fn refusal(error: GrowError, full: Mistake) -> LineError
    ensures { result ≡ refusal_of error full }
{
    match error {
        GrowError::Full => LineError::Mistake(full),
        GrowError::NoMemory => LineError::NoMemory,
    }
}

// Takes the entries into the plan.
fn enter(trace: &mut Trace, bytes: &[u8]) -> Result<(), LineError>
    ensures { Comes (entered (words bytes.now) (trace_of trace.old)) result (trace_of trace.new) }
{
    let mut rest = bytes;
    // Word by word, and no iterator of words: the clauses here and of `first_word` are by the words of a slice.
    while let Some((word, tail)) = first_word(rest) {
        let bad = entry_named(word).ok_or(Mistake::Arguments)?;
        trace
            .push_entry(bad)
            .map_err(|error| refusal(error, Mistake::PlanFull))?;
        rest = tail;
    }
    Ok(())
}

// Takes a statement, by its first word and what follows it.
fn obey(trace: &mut Trace, keyword: Keyword, bytes: &[u8]) -> Result<(), LineError>
    ensures { Comes (obeyed keyword (words bytes.now) (trace_of trace.old)) result (trace_of trace.new) }
{
    match keyword {
        Keyword::Mode => trace.mode = mode_in(bytes).ok_or(Mistake::Arguments)?,
        Keyword::Retry => trace.retry = retry_in(bytes).ok_or(Mistake::Arguments)?,
        Keyword::Plan => enter(trace, bytes)?,
        Keyword::Call(word) => {
            let call = call_with(word, bytes).ok_or(Mistake::Arguments)?;
            trace
                .push_call(call)
                .map_err(|error| refusal(error, Mistake::CallsFull))?;
        }
    }
    Ok(())
}

// The line up to its comment.
fn uncommented(line: &[u8]) -> &[u8]
    ensures { result.now ≡ uncommented line.now }
{
    let end = line
        .iter()
        .position(|byte| *byte == b'#')
        .unwrap_or(line.len());
    &line[..end]
}

// Takes a line.
pub(crate) fn take_line(trace: &mut Trace, line: &[u8]) -> Result<(), LineError>
    ensures { Comes (stated (words (uncommented line.now)) (trace_of trace.old)) result (trace_of trace.new) }
{
    let Some((word, rest)) = first_word(uncommented(line)) else {
        return Ok(());
    };
    let keyword = keyword_named(word).ok_or(Mistake::UnknownWord)?;
    obey(trace, keyword, rest)
}
