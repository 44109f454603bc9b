ghost use Rattle.std.specs.Prelude.{◌≡◌, true, length};
ghost use Rattle.batch.specs.Rows.{entries};
ghost use Rattle.group.specs.Phases.{in_turn};

use crate::group::Group;
use crate::phase::Phase;

// A sealed group with the disk call that it makes next.
#[derive(Clone, Copy)]
pub struct UnderWay {
    pub group: Group,
    pub phase: Phase,
    ghost turn: { in_turn phase (length (entries group.writes)) ≡ true },
}
