ghost use Rattle.std.specs.Prelude.{◌≡◌, [], replicate, IfOk};
ghost use Rattle.memdisk.specs.Making.{fresh};
ghost use Rattle.memdisk.specs.Parts.{medium_of, held_in};
ghost use Rattle.test_tools.specs.Disks.{bytes_of};

use disk::disk::BLOCK;
use memdisk::held::HeldDisk;
use memdisk::through::ThroughDisk;
use std::alloc::Global;
use std::test::Fail;

// The length of a buffer that is one byte too short for a block.
pub const SHORT: usize = 511;

// A held disk of so many zero blocks with this plan.
pub fn held(heap: Global, blocks: usize, plan: &[u8]) -> Result<HeldDisk, Fail>
    ensures { IfOk result (λ d. medium_of d.blocks (held_in d.loose) d.plan ≡ fresh (replicate (bytes_of blocks) 0) plan.now) }
{
    let memory = vec![in heap; 0; blocks.saturating_mul(BLOCK)]?;
    Ok(HeldDisk::new(memory, plan.to_vec(heap)?)?)
}

// A through disk of so many zero blocks with this plan. A function of its own: over a maker, as `HeldDisk::new`, the contract would be longer
// than both.
pub fn through(heap: Global, blocks: usize, plan: &[u8]) -> Result<ThroughDisk, Fail>
    ensures { IfOk result (λ d. medium_of d.blocks [] d.plan ≡ fresh (replicate (bytes_of blocks) 0) plan.now) }
{
    let memory = vec![in heap; 0; blocks.saturating_mul(BLOCK)]?;
    Ok(ThroughDisk::new(memory, plan.to_vec(heap)?)?)
}
