// Steps, restarts and tallies.
use crate::tools::Ask::*;
use crate::tools::{live, play};
use disk::error::{Fault, Kind};
use errors::CacheCall;
use precedence::{Line, Overlap};
use retry::Retry;
use std::test::Fail;
use test_tools::disks::held;
use test_tools::faults::fault_during;

#[test]
fn two_versions_of_a_place_come_home_one_by_one(rt: HostRuntime) -> Result<(), Fail> {
    let mut cache = live(held(rt.alloc(), 2, &[])?, Overlap)?;
    play(
        &mut cache,
        &[
            (Step, Ok(0)),
            (Begin(0, 1), Ok(1)),
            (Step, Ok(0)),
            (Finish(1), Ok(2)),
            (Begin(0, 2), Ok(3)),
            (Finish(3), Ok(4)),
            (Step, Ok(1)),
            (Step, Ok(2)),
            (Step, Ok(1)),
            (Step, Ok(2)),
            (Step, Ok(0)),
        ],
    )
}

#[test]
fn by_line_an_open_write_blocks(rt: HostRuntime) -> Result<(), Fail> {
    let mut cache = live(held(rt.alloc(), 2, &[])?, Line)?;
    play(
        &mut cache,
        &[
            (Begin(0, 1), Ok(1)),
            (Begin(1, 2), Ok(2)),
            (Finish(2), Ok(3)),
            (Step, Ok(3)),
            (Finish(1), Ok(4)),
            (Step, Ok(1)),
            (Step, Ok(2)),
            (Step, Ok(1)),
        ],
    )
}

// A write is not home before its flush.
#[test]
fn a_fault_leaves_the_table(rt: HostRuntime) -> Result<(), Fail> {
    let mut cache = live(held(rt.alloc(), 2, &[0, 1, 0, 1])?, Overlap)?;
    play(&mut cache, &[(Begin(1, 1), Ok(1)), (Finish(1), Ok(2))])?;
    let write = Fault {
        kind: Kind::Write,
        place: 1,
        tries: 1,
    };
    assert_eq!(rt; fault_during(CacheCall::Step, cache.step()), Some(write));
    play(&mut cache, &[(Waiting, Ok(1)), (Step, Ok(1))])?;
    let flush = Fault {
        kind: Kind::Flush,
        place: 0,
        tries: 1,
    };
    assert_eq!(rt; fault_during(CacheCall::Step, cache.step()), Some(flush));
    play(
        &mut cache,
        &[(Sent, Ok(1)), (Home, Ok(0)), (Step, Ok(2)), (Home, Ok(1))],
    )
}

#[test]
fn after_a_restart_sent_writes_wait(rt: HostRuntime) -> Result<(), Fail> {
    let mut cache = live(held(rt.alloc(), 4, &[])?, Overlap)?;
    play(
        &mut cache,
        &[
            (Begin(0, 1), Ok(1)),
            (Begin(1, 1), Ok(2)),
            (Begin(2, 1), Ok(3)),
            (Begin(3, 1), Ok(4)),
            (Finish(1), Ok(5)),
            (Finish(2), Ok(6)),
            (Withdraw(3), Ok(0)),
            (Step, Ok(1)),
            (Sent, Ok(1)),
            (Restart(255), Ok(0)),
        ],
    )?;
    let tally = cache.tally();
    assert_eq!(rt; tally.begun, 4);
    assert_eq!(rt; tally.withdrawn, 1);
    assert_eq!(rt; tally.open, 1);
    assert_eq!(rt; tally.waiting, 2);
    assert_eq!(rt; tally.sent, 0);
    assert_eq!(rt; tally.home, 0);
    Ok(())
}

#[test]
fn two_retry_layers_below(rt: HostRuntime) -> Result<(), Fail> {
    let plan = [0, 1, 1, 1, 1, 1, 1, 1, 1, 1];
    let mut cache = live(Retry::new(Retry::new(held(rt.alloc(), 2, &plan)?)), Overlap)?;
    play(&mut cache, &[(Begin(1, 1), Ok(1)), (Finish(1), Ok(2))])?;
    let bad = Fault {
        kind: Kind::Write,
        place: 1,
        tries: 9,
    };
    assert_eq!(rt; fault_during(CacheCall::Step, cache.step()), Some(bad));
    play(&mut cache, &[(Step, Ok(1))])
}
