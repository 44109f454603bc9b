ghost use Rattle.std.specs.Prelude.{◌≡◌, ◌<◌, ◌≤◌, true, is_some};
ghost use Rattle.disk.specs.Medium.{Write, Effect, size};
ghost use Rattle.head.specs.Head.{empty_head};
ghost use Rattle.journal_law.specs.Recovery.{started, home_blocks, head_write, formatted};
ghost use Rattle.journal_volume.specs.Recovering.{OfRule, Ends, IsTooSmall, RecoveredAs, accepted_by, not_accepted, with_number};
ghost use Rattle.journal_volume.specs.Restoring.{Restores, Opens};

use crate::recovery::Found;
use disk::disk::BenchDisk;
use errors::VolumeError;
use head::head::Head;

// A head and eight slots.
pub const KEPT_BLOCKS: usize = 9;

// A volume that takes no call of a cache.
#[derive(Drop)]
pub struct Cold<D> {
    disk: D,
    // the number that the last recovery answered, if it was accepted
    accepted: Option<u32>,
}

// A recovered volume, taken apart for a cache.
#[derive(Drop)]
pub struct Recovered<D> {
    pub disk: D,
    pub number: u32,
}

impl<D: BenchDisk> Cold<D> {
    pub fn new(disk: D) -> Cold<D>
        ensures { result ≡ record { disk = disk; accepted = not_accepted } }
    {
        Cold {
            disk,
            accepted: None,
        }
    }

    // Whether the last recovery was accepted.
    pub fn is_accepted(&self) -> bool
        ensures { result ≡ is_some self.now.accepted }
    {
        self.accepted.is_some()
    }

    // Hands an accepted volume over to a cache. It cannot be refused.
    pub fn into_recovered(self) -> Recovered<D>
        requires { is_some self.accepted ≡ true }
        ensures disk { result.disk ≡ self.disk }
        ensures number { self.accepted ≡ with_number result.number }
    {
        let Cold { disk, accepted } = self;
        Recovered {
            disk,
            number: accepted.unwrap_or_default(),
        }
    }

    // Writes the empty head of number 0 and flushes.
    pub fn format(&mut self) -> Result<(), VolumeError>
        ensures outcome { record { answer = result; medium = D.Disk.medium self.new.disk } ≡ formatted D.Disk.attempts (D.Disk.rule self.old.disk (head_write (home_blocks (D.Disk.medium self.old.disk)) (empty_head 0))) (D.Disk.medium self.old.disk) }
        ensures accepted { self.new.accepted ≡ not_accepted }
    {
        self.accepted = None;
        let size = self.disk.size();
        if size <= KEPT_BLOCKS {
            return Err(VolumeError::TooSmall);
        }
        let block = Head::empty(0).encode();
        self.disk.write(size - KEPT_BLOCKS, &block)?;
        self.disk.flush()?;
        Ok(())
    }

    // Brings the group that the head names home, and answers the head's number.
    pub fn recover(&mut self) -> Result<u32, VolumeError>
        ensures small { size (D.Disk.medium self.old.disk) < 10 → IsTooSmall (D.Disk.medium self.old.disk) result (D.Disk.medium self.new.disk) }
        ensures outcome { 10 ≤ size (D.Disk.medium self.old.disk) → Ends (OfRule D.Disk.rule) D.Disk.attempts (home_blocks (D.Disk.medium self.old.disk)) (started (D.Disk.medium self.old.disk)) result (D.Disk.medium self.new.disk) }
        ensures fixed { 10 ≤ size (D.Disk.medium self.old.disk) → (effect : Effect) → ((d : D) (w : Write) → D.Disk.rule d w ≡ effect) → RecoveredAs D.Disk.attempts effect (D.Disk.medium self.old.disk) result (D.Disk.medium self.new.disk) }
        ensures restores { Restores (D.Disk.medium self.old.disk) result (D.Disk.medium self.new.disk) }
        ensures opens { Opens (D.Disk.medium self.old.disk) result (D.Disk.medium self.new.disk) }
        ensures accepted { self.new.accepted ≡ accepted_by result }
    {
        self.accepted = None;
        let size = self.disk.size();
        if size <= KEPT_BLOCKS {
            return Err(VolumeError::TooSmall);
        }
        let Some(found) = Found::read(&mut self.disk, size - KEPT_BLOCKS)? else {
            return Err(VolumeError::NoHead);
        };
        found.restore(&mut self.disk)?;
        self.accepted = Some(found.head.number);
        Ok(found.head.number)
    }
}
