ghost use Rattle.std.specs.Prelude.{◌≡◌};
ghost use Rattle.head.specs.Codes.{head_of};
ghost use Rattle.journal_law.specs.Cache.{group_head};
ghost use Rattle.group.specs.Groups.{group_of};
ghost use Rattle.group.specs.declared.phase.Phase.TheVariants as phase;

use batch::rows::Batch;
use head::head::Head;

// The writes that were collected at a sealing, with its number.
#[derive(Clone, Copy)]
pub struct Group {
    pub number: u32,
    pub writes: Batch,
}

impl Group {
    // The head that names the group.
    pub fn head(&self) -> Head
        ensures { head_of result ≡ group_head (group_of self.now phase.Head) }
    {
        Head::new(self.number, self.writes.places())
    }
}
