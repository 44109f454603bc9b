// Formats and recoveries, refused and broken off.
use crate::tools::Ask::*;
use crate::tools::{busy, format, live, play, recover, recovered};
use disk::disk::{BLOCK, BenchDisk, Disk};
use journal_volume::cold::Cold;
use std::alloc::Global;
use std::test::Fail;
use test_tools::checks::{check, check_eq};
use test_tools::disks::held;

// A format does not make the volume accepted.
#[test]
fn too_small_and_no_head(rt: HostRuntime) -> Result<(), Fail> {
    let mut small = Cold::new(held(rt.alloc(), 9, &[1])?);
    assert_eq!(rt; format(&mut small), Err(12));
    assert_eq!(rt; recover(&mut small), Err(12));
    assert!(rt; !small.is_accepted());
    let mut cold = Cold::new(held(rt.alloc(), 10, &[])?);
    assert_eq!(rt; recover(&mut cold), Err(11));
    assert!(rt; !cold.is_accepted());
    assert_eq!(rt; format(&mut cold), Ok(()));
    assert!(rt; !cold.is_accepted());
    assert_eq!(rt; recover(&mut cold), Ok(0));
    assert!(rt; cold.is_accepted());
    Ok(())
}

// Each call of the disk fails once: two of the format, two of the recovery.
#[test]
fn a_fault_leaves_the_volume_cold(rt: HostRuntime) -> Result<(), Fail> {
    let mut cold = Cold::new(held(rt.alloc(), 10, &[1, 0, 1, 0, 0, 1, 0, 1])?);
    assert_eq!(rt; format(&mut cold), Err(7));
    assert_eq!(rt; format(&mut cold), Err(7));
    assert_eq!(rt; format(&mut cold), Ok(()));
    assert_eq!(rt; recover(&mut cold), Err(7));
    assert!(rt; !cold.is_accepted());
    assert_eq!(rt; recover(&mut cold), Err(7));
    assert!(rt; !cold.is_accepted());
    assert_eq!(rt; recover(&mut cold), Ok(0));
    assert!(rt; cold.is_accepted());
    Ok(())
}

// Format, first recovery and the group up to its commit take nine entries, the recovery of two blocks nine more.
const ENTRIES: usize = 18;

const COMMITTED: usize = 9;

fn broken_off(heap: Global, plan: &[u8]) -> Result<(), Fail> {
    let mut cache = live(held(heap, 11, plan)?)?;
    play(
        &mut cache,
        &[
            (Begin(0, 5), Ok(1)),
            (Begin(1, 6), Ok(2)),
            (Finish(1), Ok(3)),
            (Finish(2), Ok(4)),
            (Seal, Ok(1)),
        ],
    )?;
    busy(&mut cache, 5)?;
    let mut cold = cache.cut(0);
    check_eq(recover(&mut cold), Err(7))?;
    check(!cold.is_accepted())?;
    let mut cache = recovered(cold, 1)?;
    play(
        &mut cache,
        &[(Read(0), Ok(5)), (Read(1), Ok(6)), (Step, Ok(0))],
    )
}

#[test]
fn broken_off_at_each_call_then_completed(rt: HostRuntime) -> Result<(), Fail> {
    for call in COMMITTED..ENTRIES {
        let mut plan = [0; ENTRIES];
        plan[call] = 1;
        broken_off(rt.alloc(), &plan)?;
    }
    Ok(())
}

// A head of the last number, laid down by hand: nothing collected comes before no number left.
#[test]
fn the_last_number_seals_no_more(rt: HostRuntime) -> Result<(), Fail> {
    let mut head = [0; BLOCK];
    head[0] = 1;
    head[1..5].fill(255);
    let mut disk = held(rt.alloc(), 10, &[])?;
    disk.write(1, &head)?;
    let mut cache = recovered(Cold::new(disk), 4_294_967_295)?;
    play(
        &mut cache,
        &[
            (Seal, Err(8)),
            (Begin(0, 5), Ok(1)),
            (Finish(1), Ok(2)),
            (Seal, Err(10)),
        ],
    )
}
