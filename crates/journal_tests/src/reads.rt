// What a read shows, and what a refused one leaves.
use crate::tools::Ask::*;
use crate::tools::{busy, live, play, recovered};
use disk::disk::{BLOCK, BenchDisk, Disk};
use disk::error::{Fault, Kind};
use errors::{CacheCall, CacheError};
use std::test::Fail;
use test_tools::disks::{SHORT, held};
use test_tools::faults::fault_during;

#[test]
fn collected_then_sealed_then_disk(rt: HostRuntime) -> Result<(), Fail> {
    let mut cache = live(held(rt.alloc(), 11, &[])?)?;
    play(
        &mut cache,
        &[
            (Begin(1, 5), Ok(1)),
            (Read(1), Ok(0)),
            (Finish(1), Ok(2)),
            (Read(1), Ok(5)),
            (Seal, Ok(1)),
            (Read(1), Ok(5)),
            (Begin(1, 6), Ok(3)),
            (Read(1), Ok(5)),
            (Finish(3), Ok(4)),
            (Read(1), Ok(6)),
            (Read(0), Ok(0)),
        ],
    )?;
    busy(&mut cache, 8)?;
    play(&mut cache, &[(Step, Ok(0)), (Read(1), Ok(6))])?;
    let mut cache = recovered(cache.cut(0), 1)?;
    play(&mut cache, &[(Read(1), Ok(5))])
}

// Of eleven blocks only the home places are shown.
#[test]
fn a_refused_read_leaves_the_buffer(rt: HostRuntime) -> Result<(), Fail> {
    let mut cache = live(held(rt.alloc(), 11, &[0, 0, 0, 0, 1])?)?;
    let mut short = [7; SHORT];
    assert_eq!(rt; cache.read(2, &mut short), Err(CacheError::Length));
    assert_eq!(rt; short[0], 7);
    let mut buffer = [7; BLOCK];
    assert_eq!(rt; cache.read(2, &mut buffer), Err(CacheError::Place));
    let bad = Fault {
        kind: Kind::Read,
        place: 1,
        tries: 1,
    };
    assert_eq!(rt;
        fault_during(CacheCall::Read, cache.read(1, &mut buffer)),
        Some(bad)
    );
    assert_eq!(rt; buffer[0], 7);
    assert!(rt; cache.read(1, &mut buffer).is_ok());
    assert_eq!(rt; buffer[0], 0);
    Ok(())
}
