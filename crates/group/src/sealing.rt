ghost use Rattle.std.specs.Prelude.{◌≡◌, ◌<◌, length};
ghost use Rattle.std.proofs.Math.Option.{some};
ghost use Rattle.journal_law.specs.Cache.{group_restarted};
ghost use Rattle.batch.specs.Rows.{entries, write_list};
ghost use Rattle.group.specs.Groups.{sealed_of};
ghost use Rattle.group.specs.Phases.{phase_of};
ghost use Rattle.group.specs.declared.phase.Phase.TheVariants as phase;

use crate::group::Group;
use crate::phase::Phase;
use crate::under_way::UnderWay;
use batch::rows::Batch;

impl UnderWay {
    // A group that was sealed just now.
    pub fn new(number: u32, writes: Batch) -> UnderWay
        requires { 0 < length (entries writes) }
        ensures { sealed_of result ≡ record { number = number; writes = write_list writes; phase = phase_of (phase.Slot 0) } }
    {
        UnderWay {
            group: Group { number, writes },
            phase: Phase::Slot(0),
        }
    }

    // Back to where its disk calls have to be made again.
    pub fn restart(&mut self)
        ensures { some (sealed_of self.new) ≡ group_restarted (some (sealed_of self.old)) }
    {
        self.phase = self.phase.restarted();
    }
}
