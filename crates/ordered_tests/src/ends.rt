// Openings and cuts.
use crate::tools::Ask::*;
use crate::tools::{live, play};
use disk::disk::BenchDisk;
use ordered::cold::Cold;
use precedence::Overlap;
use std::alloc::Global;
use std::test::Fail;
use test_tools::checks::check;
use test_tools::disks::held;

#[test]
fn a_faulty_opening_leaves_the_volume_cold(rt: HostRuntime) -> Result<(), Fail> {
    let mut cold = Cold::new(held(rt.alloc(), 1, &[1])?);
    assert!(rt; !cold.is_accepted());
    assert!(rt; cold.open().is_err());
    assert!(rt; !cold.is_accepted());
    assert!(rt; cold.open().is_ok());
    assert!(rt; cold.is_accepted());
    Ok(())
}

// The write at place 0 is home, those at 1 and 2 are loose.
fn cut_by(heap: Global, choice: u8, first: u32, second: u32) -> Result<(), Fail> {
    let mut cache = live(held(heap, 3, &[])?, Overlap)?;
    play(
        &mut cache,
        &[
            (Begin(0, 1), Ok(1)),
            (Finish(1), Ok(2)),
            (Step, Ok(1)),
            (Step, Ok(2)),
            (Begin(1, 2), Ok(3)),
            (Begin(2, 3), Ok(4)),
            (Finish(3), Ok(5)),
            (Finish(4), Ok(6)),
            (Step, Ok(1)),
            (Step, Ok(1)),
        ],
    )?;
    let mut cold = cache.cut(choice);
    cold.open()?;
    check(cold.is_accepted())?;
    let mut cache = cold.into_live(Overlap);
    play(
        &mut cache,
        &[
            (Read(0), Ok(1)),
            (Read(1), Ok(first)),
            (Read(2), Ok(second)),
            (Begin(1, 9), Ok(1)),
        ],
    )
}

#[test]
fn home_writes_outlive_every_cut(rt: HostRuntime) -> Result<(), Fail> {
    cut_by(rt.alloc(), 0, 0, 0)?;
    cut_by(rt.alloc(), 1, 2, 0)?;
    cut_by(rt.alloc(), 2, 0, 3)?;
    cut_by(rt.alloc(), 3, 2, 3)
}
