// A disk with a mixed rule, to show that the caches hold over any disk: writes at even places join, those at odd places settle. It never fails.
#![tactic(auto)]

ghost use Rattle.std.specs.Prelude.{◌≡◌, true, false, [], length, MatchResult};
ghost use Rattle.memdisk.specs.Making.{usable, fresh};
ghost use Rattle.memdisk.specs.Parts.{medium_of, held_in, plan_of};
ghost use Rattle.memdisk.specs.Soundness.{parts_sound};
ghost use Rattle.mixed_disk.specs.Mixing.{by_place};

use disk::disk::{BenchDisk, Disk};
use disk::error::DiskError;
use memdisk::held::HeldDisk;
use memdisk::unusable::Unusable;
use std::alloc::Global;

#[derive(Drop)]
pub struct MixedDisk {
    held: HeldDisk,
    ghost sure: { length (plan_of held.plan) ≡ 0 },
}

impl MixedDisk {
    // The disk of these blocks, nothing loose.
    pub fn new(heap: Global, memory: Vec<u8>) -> Result<MixedDisk, Unusable>
        ensures { MatchResult result (λ d. (usable memory.items [] ≡ true) × (medium_of d.held.blocks (held_in d.held.loose) d.held.plan ≡ fresh memory.items [])) (λ e. (usable memory.items [] ≡ false) × (e.memory ≡ memory)) }
    {
        let held = HeldDisk::new(memory, Vec::new(heap))?;
        Ok(MixedDisk { held })
    }
}

impl Disk for MixedDisk {
    ghost medium = { λ d. medium_of d.held.blocks (held_in d.held.loose) d.held.plan };

    ghost attempts = { 1 };

    ghost rule = { λ _ w. by_place w.place };

    ghost sound = { λ d. parts_sound d.held.blocks d.held.loose d.held.plan d.held.fitting };

    fn tries() -> u32 {
        1
    }

    fn size(&self) -> usize {
        self.held.size()
    }

    fn read(&mut self, place: usize, buffer: &mut [u8]) -> Result<(), DiskError> {
        self.held.read(place, buffer)
    }

    fn write(&mut self, place: usize, bytes: &[u8]) -> Result<(), DiskError> {
        self.held.write(place, bytes)?;
        if place % 2 == 1 {
            return self.held.flush();
        }
        Ok(())
    }

    fn flush(&mut self) -> Result<(), DiskError> {
        self.held.flush()
    }
}

impl BenchDisk for MixedDisk {
    fn cut(&mut self, choice: u8) {
        self.held.cut(choice);
    }
}
