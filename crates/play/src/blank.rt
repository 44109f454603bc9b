// The disk that a trace is played on.
ghost use Rattle.std.specs.Prelude.{◌≡◌, true, IfOk};
ghost use Rattle.memdisk.specs.Parts.{medium_of, held_in};
ghost use Rattle.trace.specs.Format.{all_entries};
ghost use Rattle.play.specs.Plays.{blank_disk};

use disk::disk::BLOCK;
use memdisk::held::HeldDisk;
use std::alloc::{AllocError, Global};

// How many blocks it has.
const BLOCKS: usize = 64;

// A held disk of zero blocks with this plan.
pub(crate) fn blank_held(heap: Global, plan: &[u8]) -> Result<HeldDisk, AllocError>
    requires { all_entries plan.now ≡ true }
    ensures { IfOk result (λ d. medium_of d.blocks (held_in d.loose) d.plan ≡ blank_disk plan.now) }
{
    let memory = vec![in heap; 0; BLOCKS * BLOCK]?;
    // The size and the plan are those of a disk, so that no making is refused.
    let Ok(disk) = HeldDisk::new(memory, Vec::from_slice(heap, plan)?) else {
        unreachable()
    };
    Ok(disk)
}
