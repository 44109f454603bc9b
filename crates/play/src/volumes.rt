// Journal volumes are formatted and recovered again and again until they are accepted: each try that meets a fault takes an entry off the plan.
ghost use Rattle.std.specs.Prelude.{◌≡◌, ◌≤◌};
ghost use Rattle.disk.specs.Medium.{size};
ghost use Rattle.journal_law.specs.Recovery.{home_blocks};
ghost use Rattle.journal_law.specs.Laws.{JustRecovered};
ghost use Rattle.journal_volume.specs.Recovering.{with_number};
ghost use Rattle.play.specs.InJournal.{formatted_until, recovered_until};
ghost use Rattle.play.specs.Histories.{Recoverable};

use disk::disk::JoiningDisk;
use journal_volume::cold::Cold;

pub(crate) fn format_until<D: JoiningDisk>(cold: &mut Cold<D>)
    requires room { 10 ≤ size (D.Disk.medium cold.old.disk) }
    ensures after { D.Disk.medium cold.new.disk ≡ formatted_until D.Disk.attempts (D.Disk.medium cold.old.disk) }
    ensures recoverable { Recoverable (D.Disk.medium cold.new.disk) }
{
    while cold.format().is_err() {}
}

// The number recovered. That the volume was left by a cache, or formatted, keeps recovery from finding no head.
pub(crate) fn recover_until<D: JoiningDisk>(cold: &mut Cold<D>) -> u32
    requires recoverable { Recoverable (D.Disk.medium cold.old.disk) }
    ensures until { record { number = result; medium = D.Disk.medium cold.new.disk } ≡ recovered_until (D.Disk.medium cold.old.disk) }
    ensures accepted { cold.new.accepted ≡ with_number result }
    ensures starts { JustRecovered (home_blocks (D.Disk.medium cold.new.disk)) result (D.Disk.medium cold.new.disk) }
{
    loop {
        if let Ok(number) = cold.recover() {
            return number;
        }
    }
}
