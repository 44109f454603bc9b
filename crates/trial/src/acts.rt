// The acts by which a mark is written, and what is seen of it after a cut.
use crate::count::{NEW, OLD};
use crate::trial_error::TrialError;
use disk::disk::{BLOCK, BenchDisk, Disk};
use disk::error::DiskError;
use mark::Mark;
use memdisk::unusable::Unusable;
use std::alloc::Global;

// The places of a mark's two blocks.
pub(crate) const SIDE: usize = 0;

pub(crate) const DISTANCE: usize = 1;

// Acts are values and no closures: one list of them runs on a held disk and on a through disk, and a closure takes one type of disk.
#[derive(Clone, Copy)]
pub enum Act {
    Side,
    Distance,
    Flush,
}

// By these a mark is firm.
const FIRMLY: [Act; 3] = [Act::Side, Act::Distance, Act::Flush];

impl Act {
    fn on<D: Disk>(self, disk: &mut D, mark: &Mark) -> Result<(), DiskError> {
        match self {
            Act::Side => disk.write(SIDE, &mark.side_block()),
            Act::Distance => disk.write(DISTANCE, &mark.distance_block()),
            Act::Flush => disk.flush(),
        }
    }
}

fn write_by<D: Disk>(disk: &mut D, mark: &Mark, acts: &[Act]) -> Result<(), DiskError> {
    for act in acts {
        act.on(disk, mark)?;
    }
    Ok(())
}

// A disk of so many blocks, by this plan, on which the old mark is firm: the plan's first three entries are spent.
pub(crate) fn old_disk<D: Disk + Drop, F: Fn(Vec<u8>, Vec<u8>) -> Result<D, Unusable>>(
    heap: Global,
    make: F,
    blocks: usize,
    plan: &[u8],
) -> Result<D, TrialError>
    requires { F.IsAlwaysCallable make }
{
    let memory = vec![in heap; 0; blocks.saturating_mul(BLOCK)]?;
    let mut disk = make(memory, plan.to_vec(heap)?)?;
    write_by(&mut disk, &OLD, &FIRMLY)?;
    Ok(disk)
}

// The mark that these reads show.
pub(crate) fn mark_read<E, F: FnMut(usize, &mut [u8]) -> Result<(), E>>(
    mut read: F,
) -> Result<Mark, E>
    requires { F.IsAlwaysCallable read }
{
    let mut side = [0; BLOCK];
    let mut distance = [0; BLOCK];
    read(SIDE, &mut side)?;
    read(DISTANCE, &mut distance)?;
    Ok(Mark::from_blocks(&side, &distance))
}

// The old mark is firm, the acts write the new one, power fails: the mark that is then seen.
pub(crate) fn seen_after<D: BenchDisk + Drop>(
    mut disk: D,
    acts: &[Act],
    choice: u8,
) -> Result<Mark, DiskError> {
    write_by(&mut disk, &NEW, acts)?;
    disk.cut(choice);
    mark_read(|place, buffer| disk.read(place, buffer))
}
