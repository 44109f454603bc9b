// Restarts, cuts and group numbers.
use crate::tools::Ask::*;
use crate::tools::{busy, live, play, recovered};
use disk::disk::BenchDisk;
use std::alloc::Global;
use std::test::Fail;
use test_tools::disks::{held, through};

// The steps of a group of two before a restart, and those that it takes after: from the first slot, the first home place, or the empty head.
struct Restart {
    before: u32,
    after: u32,
}

const RESTARTS: [Restart; 10] = [
    Restart {
        before: 0,
        after: 10,
    },
    Restart {
        before: 1,
        after: 10,
    },
    Restart {
        before: 2,
        after: 10,
    },
    Restart {
        before: 3,
        after: 10,
    },
    Restart {
        before: 4,
        after: 10,
    },
    Restart {
        before: 5,
        after: 5,
    },
    Restart {
        before: 6,
        after: 5,
    },
    Restart {
        before: 7,
        after: 5,
    },
    Restart {
        before: 8,
        after: 2,
    },
    Restart {
        before: 9,
        after: 2,
    },
];

// The cut of the restart drops all that is loose, and so does the one at the end.
fn restarted(heap: Global, line: &Restart) -> Result<(), Fail> {
    let mut cache = live(held(heap, 11, &[])?)?;
    play(
        &mut cache,
        &[
            (Begin(0, 5), Ok(1)),
            (Begin(1, 6), Ok(2)),
            (Finish(1), Ok(3)),
            (Finish(2), Ok(4)),
            (Seal, Ok(1)),
        ],
    )?;
    busy(&mut cache, line.before)?;
    play(&mut cache, &[(Restart(0), Ok(0))])?;
    busy(&mut cache, line.after)?;
    play(&mut cache, &[(Step, Ok(0))])?;
    let mut cache = recovered(cache.cut(0), 1)?;
    play(&mut cache, &[(Read(0), Ok(5)), (Read(1), Ok(6))])
}

#[test]
fn a_restart_in_each_phase(rt: HostRuntime) -> Result<(), Fail> {
    for line in &RESTARTS {
        restarted(rt.alloc(), line)?;
    }
    Ok(())
}

// A cut by this choice after these steps of group 1: the number recovered, the byte then shown, and the number of the next group.
struct Cut {
    steps: u32,
    choice: u8,
    number: u32,
    shown: u32,
    next: u32,
}

const CUTS: [Cut; 5] = [
    Cut {
        steps: 2,
        choice: 255,
        number: 0,
        shown: 0,
        next: 1,
    },
    Cut {
        steps: 3,
        choice: 0,
        number: 0,
        shown: 0,
        next: 1,
    },
    Cut {
        steps: 3,
        choice: 1,
        number: 1,
        shown: 5,
        next: 2,
    },
    Cut {
        steps: 4,
        choice: 0,
        number: 1,
        shown: 5,
        next: 2,
    },
    Cut {
        steps: 8,
        choice: 0,
        number: 1,
        shown: 5,
        next: 2,
    },
];

fn numbered(heap: Global, cut: &Cut) -> Result<(), Fail> {
    let mut cache = live(held(heap, 10, &[])?)?;
    play(
        &mut cache,
        &[(Begin(0, 5), Ok(1)), (Finish(1), Ok(2)), (Seal, Ok(1))],
    )?;
    busy(&mut cache, cut.steps)?;
    let mut cache = recovered(cache.cut(cut.choice), cut.number)?;
    play(
        &mut cache,
        &[
            (Read(0), Ok(cut.shown)),
            (Begin(0, 6), Ok(1)),
            (Finish(1), Ok(2)),
            (Seal, Ok(cut.next)),
        ],
    )
}

#[test]
fn a_lost_sealing_gives_its_number_back(rt: HostRuntime) -> Result<(), Fail> {
    for cut in &CUTS {
        numbered(rt.alloc(), cut)?;
    }
    Ok(())
}

// On a disk whose writes settle the head commits before its flush.
#[test]
fn a_settled_head_outlives_the_cut(rt: HostRuntime) -> Result<(), Fail> {
    let mut cache = live(through(rt.alloc(), 10, &[])?)?;
    play(
        &mut cache,
        &[(Begin(0, 5), Ok(1)), (Finish(1), Ok(2)), (Seal, Ok(1))],
    )?;
    busy(&mut cache, 3)?;
    let mut cache = recovered(cache.cut(0), 1)?;
    play(&mut cache, &[(Read(0), Ok(5))])
}
