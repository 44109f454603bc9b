// Retry layers, one and two.
use crate::tools::{fill, first};
use disk::disk::{BenchDisk, Disk};
use disk::error::{DiskError, Fault, Kind};
use retry::Retry;
use std::test::Fail;
use test_tools::disks::held;

#[test]
fn two_bads_and_then_a_good(rt: HostRuntime) -> Result<(), Fail> {
    let mut disk = Retry::new(held(rt.alloc(), 1, &[1, 1, 0, 1])?);
    fill(&mut disk, 0, 9)?;
    assert_eq!(rt;
        first(&mut disk, 0)?,
        9,
        "a last bad and then the end is good"
    );
    Ok(())
}

#[test]
fn four_bads_are_a_bad_and_a_good(rt: HostRuntime) -> Result<(), Fail> {
    let mut disk = Retry::new(held(rt.alloc(), 6, &[1, 1, 1, 1])?);
    let fault = Fault {
        kind: Kind::Write,
        place: 5,
        tries: 3,
    };
    assert_eq!(rt; fill(&mut disk, 5, 9), Err(DiskError::Fault(fault)));
    fill(&mut disk, 5, 9)?;
    let mut below = disk.into_disk();
    below.cut(1);
    assert_eq!(rt; first(&mut below, 5)?, 9);
    Ok(())
}

#[test]
fn refusals_go_through(rt: HostRuntime) -> Result<(), Fail> {
    let mut disk = Retry::new(held(rt.alloc(), 2, &[1])?);
    assert_eq!(rt; disk.size(), 2);
    assert_eq!(rt; disk.write(0, &[1; 3]), Err(DiskError::Length));
    assert_eq!(rt; fill(&mut disk, 2, 1), Err(DiskError::Place));
    Ok(())
}

#[test]
fn two_layers_try_nine_times(rt: HostRuntime) -> Result<(), Fail> {
    let mut disk = Retry::new(Retry::new(held(rt.alloc(), 1, &[1; 9])?));
    let fault = Fault {
        kind: Kind::Flush,
        place: 0,
        tries: 9,
    };
    assert_eq!(rt; disk.flush(), Err(DiskError::Fault(fault)));
    assert_eq!(rt; disk.flush(), Ok(()));
    fill(&mut disk, 0, 4)?;
    disk.cut(0);
    assert_eq!(rt; first(&mut disk, 0)?, 0);
    Ok(())
}
