// Begin, finish, withdraw and seal: what they refuse, in which order, and what they answer.
use crate::tools::Ask::*;
use crate::tools::{live, play};
use std::test::Fail;
use test_tools::disks::held;

// Of eleven blocks two are home places.
#[test]
fn length_then_place_then_open(rt: HostRuntime) -> Result<(), Fail> {
    let mut cache = live(held(rt.alloc(), 11, &[])?)?;
    play(
        &mut cache,
        &[
            (BeginShort(2), Err(1)),
            (Begin(2, 1), Err(2)),
            (Begin(1, 1), Ok(1)),
            (Begin(1, 2), Err(3)),
            (Finish(1), Ok(2)),
            (Begin(1, 2), Ok(3)),
        ],
    )
}

// A place both collected and open counts once, a withdrawn write and the sealed group count not at all.
#[test]
fn eight_places_and_no_more(rt: HostRuntime) -> Result<(), Fail> {
    let mut cache = live(held(rt.alloc(), 20, &[])?)?;
    for place in 0..8 {
        assert!(rt; cache.begin(place, &[1; 512]).is_ok());
    }
    play(
        &mut cache,
        &[
            (Begin(11, 1), Err(2)),
            (Begin(0, 1), Err(3)),
            (Begin(8, 1), Err(4)),
            (Finish(1), Ok(9)),
            (Begin(8, 1), Err(4)),
            (Begin(0, 2), Ok(10)),
            (Begin(8, 1), Err(4)),
            (Withdraw(2), Ok(0)),
            (Begin(8, 1), Ok(11)),
            (Begin(9, 1), Err(4)),
            (Seal, Ok(1)),
            (Begin(9, 1), Err(4)),
            (Withdraw(10), Ok(0)),
            (Begin(9, 1), Ok(12)),
            (Begin(0, 1), Err(4)),
        ],
    )
}

#[test]
fn tickets_of_open_writes_only(rt: HostRuntime) -> Result<(), Fail> {
    let mut cache = live(held(rt.alloc(), 11, &[])?)?;
    play(
        &mut cache,
        &[
            (Finish(0), Err(6)),
            (Withdraw(1), Err(6)),
            (Begin(0, 1), Ok(1)),
            (Finish(2), Err(6)),
            (Finish(1), Ok(2)),
            (Finish(1), Err(6)),
            (Withdraw(1), Err(6)),
            (Begin(0, 1), Ok(3)),
            (Withdraw(3), Ok(0)),
            (Withdraw(3), Err(6)),
        ],
    )
}

// An open write is not collected. A group under way is refused before an empty collection.
#[test]
fn one_group_at_a_time(rt: HostRuntime) -> Result<(), Fail> {
    let mut cache = live(held(rt.alloc(), 10, &[])?)?;
    play(
        &mut cache,
        &[
            (Begin(0, 1), Ok(1)),
            (Seal, Err(8)),
            (Step, Ok(0)),
            (Finish(1), Ok(2)),
            (Step, Ok(0)),
            (Seal, Ok(1)),
            (Seal, Err(9)),
            (Begin(0, 2), Ok(3)),
            (Finish(3), Ok(4)),
            (Seal, Err(9)),
            (Step, Ok(1)),
            (Step, Ok(2)),
            (Step, Ok(1)),
            (Step, Ok(2)),
            (Step, Ok(1)),
            (Step, Ok(2)),
            (Step, Ok(1)),
            (Seal, Err(9)),
            (Step, Ok(2)),
            (Step, Ok(0)),
            (Seal, Ok(2)),
        ],
    )
}
