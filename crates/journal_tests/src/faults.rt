// A fault leaves phase and turn, and comes up whole.
use crate::tools::Ask::*;
use crate::tools::{busy, live, play};
use disk::error::{Fault, Kind};
use errors::CacheCall;
use retry::Retry;
use std::test::Fail;
use test_tools::disks::held;
use test_tools::faults::fault_during;

// Of eleven blocks the head lies at place 2, the first slot at 3.
#[test]
fn the_call_is_made_again(rt: HostRuntime) -> Result<(), Fail> {
    let mut cache = live(held(rt.alloc(), 11, &[0, 0, 0, 0, 1, 0, 1])?)?;
    play(
        &mut cache,
        &[(Begin(1, 5), Ok(1)), (Finish(1), Ok(2)), (Seal, Ok(1))],
    )?;
    let write = Fault {
        kind: Kind::Write,
        place: 3,
        tries: 1,
    };
    assert_eq!(rt; fault_during(CacheCall::Step, cache.step()), Some(write));
    play(&mut cache, &[(Step, Ok(1))])?;
    let flush = Fault {
        kind: Kind::Flush,
        place: 0,
        tries: 1,
    };
    assert_eq!(rt; fault_during(CacheCall::Step, cache.step()), Some(flush));
    busy(&mut cache, 7)?;
    play(&mut cache, &[(Step, Ok(0)), (Read(1), Ok(5))])
}

#[test]
fn two_retry_layers_below(rt: HostRuntime) -> Result<(), Fail> {
    let plan = [0, 0, 0, 0, 1, 1, 1, 1, 1, 1, 1, 1, 1];
    let mut cache = live(Retry::new(Retry::new(held(rt.alloc(), 11, &plan)?)))?;
    play(
        &mut cache,
        &[(Begin(1, 5), Ok(1)), (Finish(1), Ok(2)), (Seal, Ok(1))],
    )?;
    let bad = Fault {
        kind: Kind::Write,
        place: 3,
        tries: 9,
    };
    assert_eq!(rt; fault_during(CacheCall::Step, cache.step()), Some(bad));
    busy(&mut cache, 8)?;
    play(&mut cache, &[(Step, Ok(0)), (Read(1), Ok(5))])
}
