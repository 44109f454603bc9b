// The step and the restart of the group under way.
ghost use Rattle.std.specs.Prelude.{◌≡◌, None};
ghost use Rattle.journal_law.specs.Cache.{step as step_call, restart as restart_call, accepted};
ghost use Rattle.journal_law.specs.Laws.{RunsOn};
ghost use Rattle.journal.specs.Model.{model, does, stepped};

use crate::live::Live;
use disk::disk::BenchDisk;
use errors::{CacheCall, CacheError, Progress, during};
use group::turn::advance;
use group::under_way::UnderWay;

// The group leaves the cache.
// A function of its own: a function pays at entry for its locals, and each step would write the blank of a whole group.
fn leave(group: &mut Option<UnderWay>)
    ensures { group.new ≡ None }
{
    *group = None;
}

impl<D: BenchDisk> Live<D> {
    // Makes the disk call of the group's phase and moves on; a fault leaves phase and turn.
    pub fn step(&mut self) -> Result<Progress, CacheError>
        ensures outcome { record { answer = stepped result; live = model D.Disk.medium self.new } ≡ does D.Disk.medium D.Disk.rule D.Disk.attempts self.old step_call }
        ensures runs { RunsOn step_call (model D.Disk.medium self.old) (stepped result) (model D.Disk.medium self.new) }
    {
        let Some(under_way) = &mut self.group else {
            return Ok(Progress::Idle);
        };
        let answer = during(CacheCall::Step, under_way.make(&mut self.disk, self.home));
        let turn = advance(under_way.phase, under_way.group.writes.len(), answer)?;
        match turn.phase {
            Some(phase) => under_way.phase = phase,
            None => leave(&mut self.group),
        }
        Ok(turn.progress)
    }

    // Cuts the disk while the cache lives: the group goes back to where its disk calls have to be made again.
    pub fn restart(&mut self, choice: u8)
        ensures outcome { record { answer = accepted 0; live = model D.Disk.medium self.new } ≡ does D.Disk.medium D.Disk.rule D.Disk.attempts self.old (restart_call choice) }
        ensures runs { RunsOn (restart_call choice) (model D.Disk.medium self.old) (accepted 0) (model D.Disk.medium self.new) }
    {
        self.disk.cut(choice);
        if let Some(under_way) = &mut self.group {
            under_way.restart();
        }
    }
}
