// What a cut keeps of the loose writes.
use crate::tools::{fill, first};
use disk::disk::{BenchDisk, Disk};
use std::test::Fail;
use test_tools::disks::{held, through};

#[test]
fn the_ninth_write_settles_all(rt: HostRuntime) -> Result<(), Fail> {
    let mut disk = held(rt.alloc(), 9, &[])?;
    for place in 0..8 {
        fill(&mut disk, place, 1)?;
    }
    disk.cut(0);
    assert_eq!(rt; first(&mut disk, 7)?, 0, "eight loose writes were dropped");
    for place in 0..9 {
        fill(&mut disk, place, 2)?;
    }
    disk.cut(0);
    assert_eq!(rt; first(&mut disk, 0)?, 2);
    assert_eq!(rt; first(&mut disk, 8)?, 2);
    Ok(())
}

// What the two places show, the first firm at 1 and the second at 2.
struct Shown {
    choice: u8,
    first: u8,
    second: u8,
}

// Loose, oldest first: 3 at the first place, 4 at the second, 5 at the first.
const SHOWN: [Shown; 8] = [
    Shown {
        choice: 0,
        first: 1,
        second: 2,
    },
    Shown {
        choice: 1,
        first: 3,
        second: 2,
    },
    Shown {
        choice: 2,
        first: 1,
        second: 4,
    },
    Shown {
        choice: 3,
        first: 3,
        second: 4,
    },
    Shown {
        choice: 4,
        first: 5,
        second: 2,
    },
    Shown {
        choice: 5,
        first: 5,
        second: 2,
    },
    Shown {
        choice: 6,
        first: 5,
        second: 4,
    },
    Shown {
        choice: 255,
        first: 5,
        second: 4,
    },
];

#[test]
fn each_choice_of_three_loose_writes(rt: HostRuntime) -> Result<(), Fail> {
    for shown in &SHOWN {
        let mut disk = held(rt.alloc(), 2, &[])?;
        fill(&mut disk, 0, 1)?;
        fill(&mut disk, 1, 2)?;
        disk.flush()?;
        fill(&mut disk, 0, 3)?;
        fill(&mut disk, 1, 4)?;
        fill(&mut disk, 0, 5)?;
        assert_eq!(rt; first(&mut disk, 0)?, 5);
        disk.cut(shown.choice);
        assert_eq!(rt; first(&mut disk, 0)?, shown.first);
        assert_eq!(rt; first(&mut disk, 1)?, shown.second);
    }
    Ok(())
}

#[test]
fn a_through_disk_loses_nothing(rt: HostRuntime) -> Result<(), Fail> {
    let mut disk = through(rt.alloc(), 2, &[])?;
    fill(&mut disk, 1, 8)?;
    disk.cut(0);
    assert_eq!(rt; first(&mut disk, 1)?, 8);
    Ok(())
}

#[test]
fn a_cut_leaves_the_plan(rt: HostRuntime) -> Result<(), Fail> {
    let mut disk = held(rt.alloc(), 1, &[0, 1])?;
    fill(&mut disk, 0, 8)?;
    disk.cut(1);
    assert!(rt; disk.flush().is_err());
    assert_eq!(rt; first(&mut disk, 0)?, 8);
    Ok(())
}
