ghost use Rattle.std.specs.Prelude.{◌≡◌, ◌≤◌, true};
ghost use Rattle.disk.specs.Calls.{WritesBy};
ghost use Rattle.head.specs.Head.{encode as encoded};
ghost use Rattle.head.specs.Codes.{head_of};
ghost use Rattle.journal_law.specs.Cache.{phase_call};
ghost use Rattle.group.specs.Phases.{phase_of, in_turn};
ghost use Rattle.group.specs.Groups.{group_of, sealed_of, Makes};

use crate::group::Group;
use crate::phase::Phase;
use crate::under_way::UnderWay;
use disk::disk::Disk;
use disk::error::DiskError;
use head::head::Head;

// Writes a head at its place.
// Not inlined: a function pays at entry for its blocks, and of a group's calls two alone write a head.
#[inline(never)]
fn write_head<D: Disk>(disk: &mut D, home: usize, head: &Head) -> Result<(), DiskError>
    ensures { WritesBy (D.rule disk.old (record { place = home; bytes = encoded (head_of head.now) })) D.attempts (D.medium disk.old) home (encoded (head_of head.now)) result (D.medium disk.new) }
{
    disk.write(home, &head.encode())
}

// Makes the disk call of a phase.
pub fn make<D: Disk>(
    disk: &mut D,
    home: usize,
    group: &Group,
    phase: Phase,
) -> Result<(), DiskError>
    requires room { home ≤ 4087 }
    requires turn { in_turn phase group.now.writes.count ≡ true }
    ensures { Makes (D.rule disk.old) D.attempts (phase_call home (group_of group.now phase) (phase_of phase)) (D.medium disk.old) result (D.medium disk.new) }
{
    match phase {
        Phase::Slot(i) => disk.write(home + 1 + i, &group.writes.entry(i).bytes),
        Phase::Head => write_head(disk, home, &group.head()),
        Phase::Home(i) => {
            let entry = group.writes.entry(i);
            disk.write(entry.place, &entry.bytes)
        }
        Phase::Empty => write_head(disk, home, &Head::empty(group.number)),
        Phase::SlotsFlush | Phase::HeadFlush | Phase::HomesFlush | Phase::EmptyFlush => {
            disk.flush()
        }
    }
}

impl UnderWay {
    // Makes the disk call of the group's phase.
    pub fn make<D: Disk>(&self, disk: &mut D, home: usize) -> Result<(), DiskError>
        requires { home ≤ 4087 }
        ensures { Makes (D.rule disk.old) D.attempts (phase_call home (sealed_of self.now) (phase_of self.now.phase)) (D.medium disk.old) result (D.medium disk.new) }
    {
        make(disk, home, &self.group, self.phase)
    }
}
