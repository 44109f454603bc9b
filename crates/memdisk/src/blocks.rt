ghost use Rattle.std.specs.Prelude.{◌≡◌, ◌*◌, ◌%◌, ◌<◌, ◌≤◌, true, false, [], length, MatchResult, slice_index_or, slice_set};
ghost use Rattle.memdisk.specs.Memory.{memory_blocks, whole_blocks};

use disk::disk::BLOCK;

// The size of the largest disk.
const BLOCKS_MAX: usize = 4096;

// Whole blocks, one after another in memory.
#[derive(Drop)]
pub struct Blocks {
    pub memory: Vec<u8>,
    ghost whole: { length memory.items % 512 ≡ 0 },
    ghost some: { 0 < length memory.items },
    ghost few: { length memory.items ≤ 4096 * 512 },
}

impl Blocks {
    // The blocks of the memory, if it is 1 to 4,096 whole ones; else the memory back.
    pub(crate) fn new(memory: Vec<u8>) -> Result<Blocks, Vec<u8>>
        ensures { MatchResult result (λ b. (whole_blocks (length memory.items) ≡ true) × (b.memory ≡ memory)) (λ back. (whole_blocks (length memory.items) ≡ false) × (back ≡ memory)) }
    {
        let length = memory.len();
        if length % BLOCK != 0 || length == 0 || length > BLOCKS_MAX * BLOCK {
            return Err(memory);
        }
        Ok(Blocks { memory })
    }

    // How many they are.
    #[tactic(auto, using(crate::specs::Soundness::length_blocks))]
    pub(crate) fn count(&self) -> usize
        ensures { result ≡ length (memory_blocks self.now.memory.items) }
    {
        self.memory.len() / BLOCK
    }

    // The block of the place.
    #[tactic(auto, using(crate::specs::Soundness::length_blocks), unfolding(crate::specs::Memory::blocks_in))]
    pub(crate) fn load(&self, place: usize) -> &[u8; BLOCK]
        requires { place < length (memory_blocks self.now.memory.items) }
        ensures { result.now ≡ slice_index_or (memory_blocks self.now.memory.items) place [] }
    {
        let (blocks, _) = self.memory.as_chunks::<BLOCK>();
        &blocks[place]
    }

    // Replaces the block of the place.
    #[tactic(auto, using(crate::specs::Soundness::length_blocks))]
    pub(crate) fn store(&mut self, place: usize, block: &[u8; BLOCK])
        requires { place < length (memory_blocks self.old.memory.items) }
        ensures { memory_blocks self.new.memory.items ≡ slice_set (memory_blocks self.old.memory.items) place block.now }
    {
        // By a range: no clause says what a slice ends as that `as_chunks_mut` lent.
        let start = place * BLOCK;
        self.memory[start..start + BLOCK].copy_from_slice(block);
    }

    // The memory back.
    pub(crate) fn into_memory(self) -> Vec<u8>
        ensures { result ≡ self.memory }
    {
        let Blocks { memory } = self;
        memory
    }
}
