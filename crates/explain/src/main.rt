// Plays the trace on standard input and tells the play in words, one line a call.
#![tactic(auto)]

use input::{ROOM, read_input};
use narration::told::Told;
use play::play::play;
use precedence::{Line, Overlap};
use std::alloc::AllocError;
use trace::call::Mode;
use trace::decoding::{DecodeError, decode};
use trace::trace::Trace;
use watch::in_journal::JournalWatch;
use watch::in_order::OrderedWatch;
use watch::watch::{Watch, deed_of};

// Tells each call with its line, and with what it wrote.
fn explain<W: Watch + Drop>(rt: &HostRuntime, trace: &Trace, mut watch: W) -> anyhow::Result<()> {
    let lines = play(rt.alloc(), trace)?;
    for (call, line) in trace.calls.iter().zip(&lines) {
        let told = Told {
            mode: trace.mode,
            call: *call,
            line: *line,
            deed: deed_of(&mut watch, *call, *line),
        };
        println!(rt; "{told}")?;
    }
    Ok(())
}

fn explain_mode(rt: &HostRuntime, trace: &Trace) -> anyhow::Result<()> {
    match trace.mode {
        Mode::Overlap => explain(rt, trace, OrderedWatch::new(Overlap)),
        Mode::Line => explain(rt, trace, OrderedWatch::new(Line)),
        Mode::Journaled => explain(rt, trace, JournalWatch::new()),
    }
}

fn main(rt: HostRuntime) -> anyhow::Result<()> {
    let mut buffer = [0; ROOM];
    let input = read_input(&rt, &mut buffer)?;
    match decode(rt.alloc(), input) {
        Ok(trace) => explain_mode(&rt, &trace),
        Err(DecodeError::Malformed) => {
            println!(rt; "not a trace")?;
            Ok(())
        }
        Err(DecodeError::NoMemory) => Err(AllocError.into()),
    }
}
