use narration::told::Told;
use play::play::play_list;
use precedence::{Line, Overlap};
use std::alloc::Global;
use std::test::Fail;
use trace::call::TraceCall::{Begin, Cut, Finish, Restart, Seal, Step, Withdraw};
use trace::call::{Mode, TraceCall};
use watch::in_journal::JournalWatch;
use watch::in_order::OrderedWatch;
use watch::watch::{Watch, deed_of};

// Plays the calls, and holds each told line to the one that is expected.
fn tells<W: Watch + Drop>(
    heap: Global,
    mode: Mode,
    mut watch: W,
    calls: &[TraceCall],
    story: &[&str],
) -> Result<(), Fail> {
    let lines = play_list(heap, mode, calls)?;
    if lines.len() != story.len() {
        return Err(Fail::new("a line for each call"));
    }
    for ((call, line), expected) in calls.iter().zip(&lines).zip(story) {
        let told = Told {
            mode,
            call: *call,
            line: *line,
            deed: deed_of(&mut watch, *call, *line),
        };
        let text = format!(in heap; "{told}")?;
        if text.as_str() != *expected {
            return Err(Fail::new(text));
        }
    }
    Ok(())
}

const TWO_WRITES: [TraceCall; 10] = [
    Begin { place: 5, fill: 9 },
    Begin { place: 7, fill: 8 },
    Finish { ticket: 2 },
    Finish { ticket: 1 },
    Step,
    Step,
    Step,
    Restart { choice: 0 },
    Step,
    Step,
];

// Under overlap neither of two writes that were open together precedes the other: both are sent, the first begun first, and one flush brings both home.
#[test]
fn overlapping_writes(rt: HostRuntime) -> Result<(), Fail> {
    let story = [
        "begin place 5: ticket 1",
        "begin place 7: ticket 2",
        "finish ticket 2: mark 3",
        "finish ticket 1: mark 4",
        "step: wrote place 5",
        "step: wrote place 7",
        "step: flushed",
        "restart, choice 0: cut and started again",
        "step: idle",
        "step: idle",
    ];
    tells(
        rt.alloc(),
        Mode::Overlap,
        OrderedWatch::new(Overlap),
        &TWO_WRITES,
        &story,
    )
}

// In line the second waits until the first is home.
#[test]
fn writes_in_line(rt: HostRuntime) -> Result<(), Fail> {
    let story = [
        "begin place 5: ticket 1",
        "begin place 7: ticket 2",
        "finish ticket 2: mark 3",
        "finish ticket 1: mark 4",
        "step: wrote place 5",
        "step: flushed",
        "step: wrote place 7",
        "restart, choice 0: cut and started again",
        "step: wrote place 7",
        "step: flushed",
    ];
    tells(
        rt.alloc(),
        Mode::Line,
        OrderedWatch::new(Line),
        &TWO_WRITES,
        &story,
    )
}

// An open write blocks the line until it is withdrawn.
#[test]
fn a_blocked_line(rt: HostRuntime) -> Result<(), Fail> {
    let calls = [
        Begin { place: 1, fill: 1 },
        Begin { place: 2, fill: 2 },
        Finish { ticket: 2 },
        Step,
        Withdraw { ticket: 1 },
        Step,
        Cut { choice: 0 },
        Step,
    ];
    let story = [
        "begin place 1: ticket 1",
        "begin place 2: ticket 2",
        "finish ticket 2: mark 3",
        "step: blocked",
        "withdraw ticket 1: gone",
        "step: wrote place 2",
        "cut, choice 0: opened again",
        "step: idle",
    ];
    tells(
        rt.alloc(),
        Mode::Line,
        OrderedWatch::new(Line),
        &calls,
        &story,
    )
}

// A group of two blocks goes through all its phases.
#[test]
fn a_group(rt: HostRuntime) -> Result<(), Fail> {
    let calls = [
        Begin { place: 9, fill: 1 },
        Begin { place: 4, fill: 2 },
        Finish { ticket: 2 },
        Finish { ticket: 1 },
        Seal,
        Step,
        Step,
        Step,
        Step,
        Step,
        Step,
        Step,
        Step,
        Step,
        Step,
        Step,
    ];
    let story = [
        "begin place 9: ticket 1",
        "begin place 4: ticket 2",
        "finish ticket 2: mark 3",
        "finish ticket 1: mark 4",
        "seal: group 1",
        "step: wrote slot 1",
        "step: wrote slot 2",
        "step: flushed",
        "step: wrote the head",
        "step: flushed",
        "step: wrote place 4",
        "step: wrote place 9",
        "step: flushed",
        "step: wrote the empty head",
        "step: flushed",
        "step: idle",
    ];
    tells(
        rt.alloc(),
        Mode::Journaled,
        JournalWatch::new(),
        &calls,
        &story,
    )
}
