ghost use Rattle.std.specs.Prelude.{◌≡◌, true, false, MatchResult};
ghost use Rattle.memdisk.specs.Memory.{memory_blocks, entries};
ghost use Rattle.memdisk.specs.Making.{usable};
ghost use Rattle.memdisk.specs.Parts.{blocks_of, plan_of};

use crate::blocks::Blocks;
use crate::plan::{Plan, all_entries};
use crate::unusable::Unusable;

// The parts that a disk in memory is made of.
pub(crate) fn parts(memory: Vec<u8>, plan: Vec<u8>) -> Result<(Blocks, Plan), Unusable>
    ensures { MatchResult result (λ p. (usable memory.items plan.items ≡ true) × (blocks_of p.0 ≡ memory_blocks memory.items) × (plan_of p.1 ≡ entries plan.items)) (λ e. (usable memory.items plan.items ≡ false) × (e ≡ record { memory = memory; plan = plan })) }
{
    if !all_entries(&plan) {
        return Err(Unusable { memory, plan });
    }
    // A match: the plan goes into either answer, so that no two closures can hold it.
    match Blocks::new(memory) {
        Ok(blocks) => Ok((blocks, Plan::new(plan))),
        Err(memory) => Err(Unusable { memory, plan }),
    }
}
