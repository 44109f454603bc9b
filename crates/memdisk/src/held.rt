ghost use Rattle.std.specs.Prelude.{◌≡◌, true, false, length, MatchResult, refl};
ghost use Rattle.disk.specs.Medium.{join};
ghost use Rattle.memdisk.specs.Making.{usable, fresh, Holds};
ghost use Rattle.memdisk.specs.Parts.{medium_of, held_in, blocks_of, EachFits};
ghost use Rattle.memdisk.specs.Soundness.{parts_sound};

use crate::blocks::Blocks;
use crate::laying::{current, lay_all, lay_standing};
use crate::loose::{LooseWrite, LooseWrites};
use crate::parts::parts;
use crate::plan::Plan;
use crate::unusable::Unusable;
use disk::disk::{BLOCK, BenchDisk, Disk, JoiningDisk, LOOSE_MAX};
use disk::error::{DiskError, Kind};

// A disk whose good writes join the loose ones until eight are loose; the ninth settles.
#[derive(Drop)]
pub struct HeldDisk {
    blocks: Blocks,
    loose: LooseWrites,
    plan: Plan,
    ghost fitting: { EachFits (length (blocks_of blocks)) (held_in loose) },
}

impl HeldDisk {
    // The disk of these blocks, nothing loose, on which the calls to come go by this plan.
    pub fn new(memory: Vec<u8>, plan: Vec<u8>) -> Result<HeldDisk, Unusable>
        ensures { MatchResult result (λ d. (usable memory.items plan.items ≡ true) × (medium_of d.blocks (held_in d.loose) d.plan ≡ fresh memory.items plan.items)) (λ e. (usable memory.items plan.items ≡ false) × (e ≡ record { memory = memory; plan = plan })) }
    {
        let (blocks, plan) = parts(memory, plan)?;
        Ok(HeldDisk {
            blocks,
            loose: LooseWrites::new(),
            plan,
        })
    }

    // The firm blocks back; loose writes are lost, as in a cut that drops all.
    pub fn into_memory(self) -> Vec<u8>
        ensures { Holds (medium_of self.blocks (held_in self.loose) self.plan) result.items }
    {
        let HeldDisk {
            blocks,
            loose: _,
            plan: _,
        } = self;
        blocks.into_memory()
    }
}

impl Disk for HeldDisk {
    ghost medium = { λ d. medium_of d.blocks (held_in d.loose) d.plan };

    ghost attempts = { 1 };

    ghost rule = { λ _ _. join };

    ghost sound = { λ d. parts_sound d.blocks d.loose d.plan d.fitting };

    fn tries() -> u32 {
        1
    }

    fn size(&self) -> usize {
        self.blocks.count()
    }

    fn read(&mut self, place: usize, buffer: &mut [u8]) -> Result<(), DiskError> {
        let block = buffer.as_mut_array::<BLOCK>().ok_or(DiskError::Length)?;
        self.plan.admit(self.blocks.count(), Kind::Read, place)?;
        *block = *current(&self.blocks, self.loose.as_slice(), place);
        Ok(())
    }

    #[tactic(auto, using(crate::proofs::Lays::length_lay))]
    fn write(&mut self, place: usize, bytes: &[u8]) -> Result<(), DiskError> {
        let block = bytes.as_array::<BLOCK>().ok_or(DiskError::Length)?;
        self.plan.admit(self.blocks.count(), Kind::Write, place)?;
        if self.loose.count < LOOSE_MAX {
            self.loose.push(LooseWrite {
                place,
                bytes: *block,
            });
        } else {
            lay_all(&mut self.blocks, self.loose.as_slice());
            self.loose.clear();
            self.blocks.store(place, block);
        }
        Ok(())
    }

    fn flush(&mut self) -> Result<(), DiskError> {
        self.plan.pass(Kind::Flush, 0)?;
        lay_all(&mut self.blocks, self.loose.as_slice());
        self.loose.clear();
        Ok(())
    }
}

impl BenchDisk for HeldDisk {
    fn cut(&mut self, choice: u8) {
        lay_standing(&mut self.blocks, self.loose.as_slice(), choice);
        self.loose.clear();
    }
}

impl JoiningDisk for HeldDisk {
    ghost joins = { λ d w. refl };
}
