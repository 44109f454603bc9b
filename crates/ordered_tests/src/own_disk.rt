// The cache over a disk with a rule of its own: place 0 joins, place 1 settles.
use crate::mixed::Mixed;
use crate::tools::Ask::*;
use crate::tools::{live, play};
use disk::disk::BenchDisk;
use precedence::Overlap;
use std::test::Fail;
use test_tools::checks::check;

#[test]
fn all_come_home_after_a_restart(rt: HostRuntime) -> Result<(), Fail> {
    let mut cache = live(Mixed::new(), Overlap)?;
    play(
        &mut cache,
        &[
            (Begin(0, 5), Ok(1)),
            (Finish(1), Ok(2)),
            (Step, Ok(1)),
            (Begin(1, 6), Ok(3)),
            (Finish(3), Ok(4)),
            (Restart(0), Ok(0)),
            (Step, Ok(1)),
            (Step, Ok(2)),
            (Step, Ok(1)),
            (Step, Ok(2)),
            (Home, Ok(2)),
        ],
    )
}

// The cut drops what joined, and keeps what settled.
#[test]
fn a_cut_between_the_two(rt: HostRuntime) -> Result<(), Fail> {
    let mut cache = live(Mixed::new(), Overlap)?;
    play(
        &mut cache,
        &[
            (Begin(0, 5), Ok(1)),
            (Begin(1, 6), Ok(2)),
            (Finish(1), Ok(3)),
            (Finish(2), Ok(4)),
            (Step, Ok(1)),
            (Step, Ok(1)),
        ],
    )?;
    let mut cold = cache.cut(0);
    cold.open()?;
    check(cold.is_accepted())?;
    let mut cache = cold.into_live(Overlap);
    play(&mut cache, &[(Read(0), Ok(5)), (Read(1), Ok(6))])
}
