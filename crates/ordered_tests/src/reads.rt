// What a read shows, and what a refused one leaves.
use crate::tools::Ask::*;
use crate::tools::{live, play};
use disk::disk::BLOCK;
use disk::error::{Fault, Kind};
use errors::{CacheCall, CacheError};
use precedence::Overlap;
use std::test::Fail;
use test_tools::disks::{SHORT, held};
use test_tools::faults::fault_during;

// Of two versions the newer is shown.
#[test]
fn open_writes_are_not_shown(rt: HostRuntime) -> Result<(), Fail> {
    let mut cache = live(held(rt.alloc(), 2, &[])?, Overlap)?;
    play(
        &mut cache,
        &[
            (Begin(1, 5), Ok(1)),
            (Read(1), Ok(0)),
            (Finish(1), Ok(2)),
            (Read(1), Ok(5)),
            (Begin(1, 6), Ok(3)),
            (Read(1), Ok(5)),
            (Finish(3), Ok(4)),
            (Read(1), Ok(6)),
        ],
    )
}

#[test]
fn a_refused_read_leaves_the_buffer(rt: HostRuntime) -> Result<(), Fail> {
    let mut cache = live(held(rt.alloc(), 2, &[0, 1])?, Overlap)?;
    let mut short = [7; SHORT];
    assert_eq!(rt;
        cache.read(2, &mut short).map_err(CacheError::number),
        Err(1)
    );
    assert_eq!(rt; short[0], 7);
    let mut buffer = [7; BLOCK];
    assert_eq!(rt;
        cache.read(2, &mut buffer).map_err(CacheError::number),
        Err(2)
    );
    let bad = Fault {
        kind: Kind::Read,
        place: 1,
        tries: 1,
    };
    assert_eq!(rt;
        fault_during(CacheCall::Read, cache.read(1, &mut buffer)),
        Some(bad)
    );
    assert_eq!(rt; buffer[0], 7);
    assert_eq!(rt; cache.read(1, &mut buffer), Ok(()));
    assert_eq!(rt; buffer[0], 0);
    Ok(())
}
