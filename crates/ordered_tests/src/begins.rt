// Begin, finish and withdraw: what they refuse, in which order, and what they answer.
use crate::tools::Ask::*;
use crate::tools::{live, play};
use precedence::Overlap;
use std::test::Fail;
use test_tools::disks::held;

#[test]
fn length_then_place_then_open(rt: HostRuntime) -> Result<(), Fail> {
    let mut cache = live(held(rt.alloc(), 2, &[])?, Overlap)?;
    play(
        &mut cache,
        &[
            (BeginShort(2), Err(1)),
            (Begin(2, 1), Err(2)),
            (Begin(1, 1), Ok(1)),
            (Begin(1, 2), Err(3)),
            (Finish(1), Ok(2)),
            (Begin(1, 2), Ok(3)),
        ],
    )
}

// An open place is refused before a full table; a waiting write is held; a withdrawn one leaves its room, not its mark.
#[test]
fn thirty_two_writes_and_no_more(rt: HostRuntime) -> Result<(), Fail> {
    let mut cache = live(held(rt.alloc(), 40, &[])?, Overlap)?;
    for place in 0..32 {
        assert!(rt; cache.begin(place, &[1; 512]).is_ok());
    }
    play(
        &mut cache,
        &[
            (Begin(0, 1), Err(3)),
            (Begin(32, 1), Err(4)),
            (Finish(7), Ok(33)),
            (Begin(32, 1), Err(4)),
            (Withdraw(8), Ok(0)),
            (Begin(32, 1), Ok(34)),
        ],
    )
}

#[test]
fn tickets_of_open_writes_only(rt: HostRuntime) -> Result<(), Fail> {
    let mut cache = live(held(rt.alloc(), 2, &[])?, Overlap)?;
    play(
        &mut cache,
        &[
            (Finish(0), Err(6)),
            (Begin(0, 1), Ok(1)),
            (Finish(2), Err(6)),
            (Finish(1), Ok(2)),
            (Finish(1), Err(6)),
            (Withdraw(1), Err(6)),
            (Begin(0, 1), Ok(3)),
            (Withdraw(3), Ok(0)),
            (Withdraw(3), Err(6)),
        ],
    )
}
