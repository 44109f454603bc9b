// The making of a live cache, and its end.
ghost use Rattle.std.specs.Prelude.{◌≡◌, true, is_some};
ghost use Rattle.disk.specs.Medium.{cut as cut_medium};
ghost use Rattle.journal_volume.specs.Recovering.{not_accepted};
ghost use Rattle.journal.specs.Model.{model};
ghost use Rattle.journal.specs.Ends.{Starts, EndsIn};

use crate::live::Live;
use batch::rows::Batch;
use disk::disk::BenchDisk;
use journal_volume::cold::{Cold, KEPT_BLOCKS, Recovered};

impl<D: BenchDisk> Live<D> {
    // An accepted volume becomes live and empty. It cannot be refused.
    pub fn new(cold: Cold<D>) -> Live<D>
        requires { is_some cold.accepted ≡ true }
        ensures { Starts cold.accepted (D.Disk.medium cold.disk) (model D.Disk.medium result) }
    {
        let Recovered { disk, number } = cold.into_recovered();
        let home = disk.size().saturating_sub(KEPT_BLOCKS);
        Live {
            disk,
            home,
            counter: 0,
            opens: Batch::new(),
            collected: Batch::new(),
            group: None,
            last: number,
        }
    }

    // Ends the cache: its disk, cut, is a cold volume.
    pub fn cut(self, choice: u8) -> Cold<D>
        ensures after { D.Disk.medium result.disk ≡ cut_medium choice (D.Disk.medium self.disk) }
        ensures cold { result.accepted ≡ not_accepted }
        ensures runs { EndsIn (model D.Disk.medium self) (D.Disk.medium result.disk) }
    {
        let Live {
            mut disk,
            home: _,
            counter: _,
            opens: _,
            collected: _,
            group: _,
            last: _,
        } = self;
        disk.cut(choice);
        Cold::new(disk)
    }
}
