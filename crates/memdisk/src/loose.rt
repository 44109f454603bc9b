ghost use Rattle.std.specs.Prelude.{◌≡◌, ◌+◌, ◌<◌, ◌≤◌, [], ◌∷◌, ◌++◌, length, take};

use disk::disk::{BLOCK, LOOSE_MAX};

// A write that was accepted and is not yet firm.
#[derive(Clone, Copy, Default)]
pub struct LooseWrite {
    pub place: usize,
    pub bytes: [u8; BLOCK],
}

// The loose writes of a disk, oldest first: the first `count` of the array.
// An array with a count: emptying an ArrayVec writes a blank over each element.
#[derive(Drop)]
pub struct LooseWrites {
    pub writes: [LooseWrite; LOOSE_MAX],
    pub count: usize,
    ghost full: { length writes ≡ 8 },
    ghost few: { count ≤ 8 },
}

impl LooseWrites {
    pub(crate) fn new() -> LooseWrites
        ensures { result.count ≡ 0 }
    {
        LooseWrites {
            writes: [LooseWrite::default(); LOOSE_MAX],
            count: 0,
        }
    }

    pub(crate) fn as_slice(&self) -> &[LooseWrite]
        ensures { result.now ≡ take self.now.count self.now.writes }
    {
        &self.writes[..self.count]
    }

    // One write more.
    pub(crate) fn push(&mut self, write: LooseWrite)
        requires { self.old.count < 8 }
        ensures { take self.new.count self.new.writes ≡ take self.old.count self.old.writes ++ write ∷ [] }
    {
        let at = self.count;
        self.writes[at] = write;
        self.count = at + 1;
    }

    pub(crate) fn clear(&mut self)
        ensures { take self.new.count self.new.writes ≡ [] }
    {
        self.count = 0;
    }
}
