ghost use Rattle.std.specs.Prelude.{◌≡◌, true, false, [], MatchResult};
ghost use Rattle.disk.specs.Medium.{settle};
ghost use Rattle.memdisk.specs.Making.{usable, fresh, Holds};
ghost use Rattle.memdisk.specs.Parts.{medium_of};
ghost use Rattle.memdisk.specs.Soundness.{through_sound};

use crate::blocks::Blocks;
use crate::parts::parts;
use crate::plan::Plan;
use crate::unusable::Unusable;
use disk::disk::{BLOCK, BenchDisk, Disk};
use disk::error::{DiskError, Kind};

// A disk on which every good write settles at once. It is a type of its own: of one type by its capacity, 8 or 0, the rule, join or settle, would hang on a number, and every contract that names the rule with it.
#[derive(Drop)]
pub struct ThroughDisk {
    blocks: Blocks,
    plan: Plan,
}

impl ThroughDisk {
    // The disk of these blocks, on which the calls to come go by this plan.
    pub fn new(memory: Vec<u8>, plan: Vec<u8>) -> Result<ThroughDisk, Unusable>
        ensures { MatchResult result (λ d. (usable memory.items plan.items ≡ true) × (medium_of d.blocks [] d.plan ≡ fresh memory.items plan.items)) (λ e. (usable memory.items plan.items ≡ false) × (e ≡ record { memory = memory; plan = plan })) }
    {
        let (blocks, plan) = parts(memory, plan)?;
        Ok(ThroughDisk { blocks, plan })
    }

    // The blocks back.
    pub fn into_memory(self) -> Vec<u8>
        ensures { Holds (medium_of self.blocks [] self.plan) result.items }
    {
        let ThroughDisk { blocks, plan: _ } = self;
        blocks.into_memory()
    }
}

impl Disk for ThroughDisk {
    ghost medium = { λ d. medium_of d.blocks [] d.plan };

    ghost attempts = { 1 };

    ghost rule = { λ _ _. settle };

    ghost sound = { λ d. through_sound d.blocks d.plan };

    fn tries() -> u32 {
        1
    }

    fn size(&self) -> usize {
        self.blocks.count()
    }

    fn read(&mut self, place: usize, buffer: &mut [u8]) -> Result<(), DiskError> {
        let block = buffer.as_mut_array::<BLOCK>().ok_or(DiskError::Length)?;
        self.plan.admit(self.blocks.count(), Kind::Read, place)?;
        *block = *self.blocks.load(place);
        Ok(())
    }

    fn write(&mut self, place: usize, bytes: &[u8]) -> Result<(), DiskError> {
        let block = bytes.as_array::<BLOCK>().ok_or(DiskError::Length)?;
        self.plan.admit(self.blocks.count(), Kind::Write, place)?;
        self.blocks.store(place, block);
        Ok(())
    }

    fn flush(&mut self) -> Result<(), DiskError> {
        self.plan.pass(Kind::Flush, 0)
    }
}

impl BenchDisk for ThroughDisk {
    fn cut(&mut self, _choice: u8) {}
}
