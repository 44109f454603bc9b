// The ways of a mark to storage through a cache.
use crate::acts::{DISTANCE, SIDE, mark_read, old_disk};
use crate::count::NEW;
use crate::trial_error::TrialError;
use disk::disk::BenchDisk;
use errors::{CacheError, Progress};
use journal::live::Live as JournaledCache;
use journal_volume::cold::Cold as JournalVolume;
use mark::Mark;
use memdisk::held::HeldDisk;
use ordered::cold::Cold as OrderedVolume;
use ordered::live::Live as OrderedCache;
use precedence::Overlap;
use std::alloc::Global;

// Room for a journal: seven home places, a head and eight slots.
const BLOCKS: usize = 16;

// The writes of a mark.
const WRITES: usize = 2;

// The flushes and heads of a group.
const GROUP_CALLS: usize = 6;

pub(crate) trait Route {
    // A cache that has taken up the new mark, over a disk with the old one; of the plan's entries some are spent by then.
    fn taken_up(heap: Global, plan: &[u8]) -> Result<Self, TrialError>;

    fn go_on(&mut self) -> Result<Progress, CacheError>;

    // Power fails: what a reader then sees.
    fn seen_after(self, choice: u8) -> Result<Mark, TrialError>;

    // The steps that bring all to storage, if this many of them meet a fault.
    fn bound(faults: usize) -> usize;
}

// Has each block of the new mark written in turn: the closure begins and finishes a write of its cache.
fn write_new<F: FnMut(usize, &[u8]) -> Result<(), CacheError>>(
    mut write: F,
) -> Result<(), CacheError>
    requires { F.IsAlwaysCallable write }
{
    write(SIDE, &NEW.side_block())?;
    write(DISTANCE, &NEW.distance_block())
}

// The distance is begun after the side was finished.
impl Route for OrderedCache<HeldDisk, Overlap> {
    fn taken_up(heap: Global, plan: &[u8]) -> Result<OrderedCache<HeldDisk, Overlap>, TrialError> {
        let mut cold = OrderedVolume::new(old_disk(heap, HeldDisk::new, BLOCKS, plan)?);
        cold.open()?;
        let mut cache = cold.into_live(Overlap);
        write_new(|place, block| {
            let ticket = cache.begin(place, block)?;
            cache.finish(ticket)?;
            Ok(())
        })?;
        Ok(cache)
    }

    fn go_on(&mut self) -> Result<Progress, CacheError> {
        self.step()
    }

    fn seen_after(self, choice: u8) -> Result<Mark, TrialError> {
        let mut cold = self.cut(choice);
        cold.open()?;
        let mut cache = cold.into_live(Overlap);
        Ok(mark_read(|place, buffer| cache.read(place, buffer))?)
    }

    fn bound(faults: usize) -> usize {
        (2 * WRITES).saturating_add(faults)
    }
}

// Both blocks in one group, sealed.
impl Route for JournaledCache<HeldDisk> {
    fn taken_up(heap: Global, plan: &[u8]) -> Result<JournaledCache<HeldDisk>, TrialError> {
        let mut cold = JournalVolume::new(old_disk(heap, HeldDisk::new, BLOCKS, plan)?);
        cold.format()?;
        cold.recover()?;
        let mut cache = JournaledCache::new(cold);
        write_new(|place, block| {
            let ticket = cache.begin(place, block)?;
            cache.finish(ticket)?;
            Ok(())
        })?;
        cache.seal()?;
        Ok(cache)
    }

    fn go_on(&mut self) -> Result<Progress, CacheError> {
        self.step()
    }

    fn seen_after(self, choice: u8) -> Result<Mark, TrialError> {
        let mut cold = self.cut(choice);
        cold.recover()?;
        let mut cache = JournaledCache::new(cold);
        Ok(mark_read(|place, buffer| cache.read(place, buffer))?)
    }

    fn bound(faults: usize) -> usize {
        (2 * WRITES + GROUP_CALLS).saturating_add(faults)
    }
}
