// The length is tested before the place, and both before the plan; a refusal leaves plan and buffer.
use crate::tools::{fill, first};
use disk::disk::{BLOCK, Disk};
use disk::error::{DiskError, Fault, Kind};
use std::test::Fail;
use test_tools::disks::{SHORT, held, through};

#[test]
fn length_comes_before_place(rt: HostRuntime) -> Result<(), Fail> {
    let mut disk = held(rt.alloc(), 2, &[])?;
    let mut short = [7; SHORT];
    assert_eq!(rt; disk.read(2, &mut short), Err(DiskError::Length));
    assert_eq!(rt; short[0], 7);
    assert_eq!(rt; disk.write(2, &short), Err(DiskError::Length));
    let mut buffer = [7; BLOCK];
    assert_eq!(rt; disk.read(2, &mut buffer), Err(DiskError::Place));
    assert_eq!(rt; buffer[0], 7);
    assert_eq!(rt; disk.write(2, &buffer), Err(DiskError::Place));
    Ok(())
}

#[test]
fn refusals_leave_the_plan(rt: HostRuntime) -> Result<(), Fail> {
    let mut disk = through(rt.alloc(), 1, &[1])?;
    assert_eq!(rt; disk.write(0, &[1; SHORT]), Err(DiskError::Length));
    assert_eq!(rt; disk.write(1, &[1; BLOCK]), Err(DiskError::Place));
    let bad = DiskError::Fault(Fault {
        kind: Kind::Flush,
        place: 0,
        tries: 1,
    });
    assert_eq!(rt; disk.flush(), Err(bad));
    assert_eq!(rt; disk.flush(), Ok(()));
    Ok(())
}

#[test]
fn faults_tell_kind_and_place(rt: HostRuntime) -> Result<(), Fail> {
    let mut disk = held(rt.alloc(), 4, &[1, 1])?;
    let mut buffer = [7; BLOCK];
    let read = Fault {
        kind: Kind::Read,
        place: 3,
        tries: 1,
    };
    assert_eq!(rt; disk.read(3, &mut buffer), Err(DiskError::Fault(read)));
    assert_eq!(rt; buffer[0], 7);
    let write = Fault {
        kind: Kind::Write,
        place: 2,
        tries: 1,
    };
    assert_eq!(rt; fill(&mut disk, 2, 9), Err(DiskError::Fault(write)));
    assert_eq!(rt; first(&mut disk, 2)?, 0);
    Ok(())
}

#[test]
fn past_its_end_a_plan_is_good(rt: HostRuntime) -> Result<(), Fail> {
    let mut disk = held(rt.alloc(), 1, &[0, 1])?;
    fill(&mut disk, 0, 5)?;
    assert!(rt; fill(&mut disk, 0, 6).is_err());
    assert_eq!(rt; first(&mut disk, 0)?, 5);
    fill(&mut disk, 0, 6)?;
    assert_eq!(rt; first(&mut disk, 0)?, 6);
    Ok(())
}

#[test]
fn numbers(rt: HostRuntime) {
    let fault = Fault {
        kind: Kind::Read,
        place: 0,
        tries: 1,
    };
    assert_eq!(rt; DiskError::Length.number(), 1);
    assert_eq!(rt; DiskError::Place.number(), 2);
    assert_eq!(rt; DiskError::Fault(fault).number(), 7);
    assert_eq!(rt; Kind::Read.number(), 1);
    assert_eq!(rt; Kind::Write.number(), 2);
    assert_eq!(rt; Kind::Flush.number(), 3);
}
