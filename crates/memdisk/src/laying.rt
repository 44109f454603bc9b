ghost use Rattle.std.specs.Prelude.{◌≡◌, ◌<◌, [], length, slice_index_or};
ghost use Rattle.disk.specs.Medium.{lay, standing};
ghost use Rattle.memdisk.specs.Parts.{blocks_of, writes_of, EachFits};

use crate::blocks::Blocks;
use crate::loose::LooseWrite;
use disk::disk::BLOCK;

// Lays the writes on the blocks, the first first.
pub(crate) fn lay_all(blocks: &mut Blocks, writes: &[LooseWrite])
    requires { EachFits (length (blocks_of blocks.old)) writes.now }
    ensures { blocks_of blocks.new ≡ lay (blocks_of blocks.old) (writes_of writes.now) }
{
    for w in writes {
        blocks.store(w.place, &w.bytes);
    }
}

// Lays those of the writes on the blocks that stand by the choice's bits, the first by the lowest.
// The bits are halved by hand: a shift by the write's number says no more, and asks for a bound on it.
pub(crate) fn lay_standing(blocks: &mut Blocks, writes: &[LooseWrite], choice: u8)
    requires { EachFits (length (blocks_of blocks.old)) writes.now }
    ensures { blocks_of blocks.new ≡ lay (blocks_of blocks.old) (standing choice (writes_of writes.now)) }
{
    let mut bits = choice;
    for w in writes {
        if bits % 2 == 1 {
            blocks.store(w.place, &w.bytes);
        }
        bits /= 2;
    }
}

// What a read of the place shows: the newest of the writes at it, or else its block.
pub(crate) fn current<'a>(
    blocks: &'a Blocks,
    writes: &'a [LooseWrite],
    place: usize,
) -> &'a [u8; BLOCK]
    requires { place < length (blocks_of blocks.now) }
    ensures { result.now ≡ slice_index_or (lay (blocks_of blocks.now) (writes_of writes.now)) place [] }
{
    match writes.iter().rev().find(|w| w.place == place) {
        Some(w) => &w.bytes,
        None => blocks.load(place),
    }
}
