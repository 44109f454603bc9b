// A disk with a rule of its own below the cache: writes at even places join, those at odd places settle.
use crate::tools::Ask::*;
use crate::tools::{busy, live, play, recovered};
use disk::disk::{BLOCK, BenchDisk};
use mixed_disk::MixedDisk;
use std::alloc::Global;
use std::test::Fail;

// A cut with choice 0 drops what joined: the head is kept where its place, nine below the size, is odd.
struct Cut {
    blocks: usize,
    steps: u32,
    number: u32,
    shown: [u32; 2],
}

const CUTS: [Cut; 4] = [
    Cut {
        blocks: 12,
        steps: 3,
        number: 0,
        shown: [0, 0],
    },
    Cut {
        blocks: 12,
        steps: 4,
        number: 1,
        shown: [5, 6],
    },
    Cut {
        blocks: 13,
        steps: 4,
        number: 0,
        shown: [0, 0],
    },
    Cut {
        blocks: 13,
        steps: 6,
        number: 1,
        shown: [5, 6],
    },
];

fn cut_after(heap: Global, cut: &Cut) -> Result<(), Fail> {
    let memory = vec![in heap; 0; cut.blocks.saturating_mul(BLOCK)]?;
    let mut cache = live(MixedDisk::new(heap, memory)?)?;
    play(
        &mut cache,
        &[
            (Begin(0, 5), Ok(1)),
            (Begin(1, 6), Ok(2)),
            (Finish(1), Ok(3)),
            (Finish(2), Ok(4)),
            (Seal, Ok(1)),
        ],
    )?;
    busy(&mut cache, cut.steps)?;
    let mut cache = recovered(cache.cut(0), cut.number)?;
    play(
        &mut cache,
        &[(Read(0), Ok(cut.shown[0])), (Read(1), Ok(cut.shown[1]))],
    )
}

#[test]
fn a_group_over_a_mixed_rule(rt: HostRuntime) -> Result<(), Fail> {
    for cut in &CUTS {
        cut_after(rt.alloc(), cut)?;
    }
    Ok(())
}
