// Opening a cold volume, and ending a live one.
ghost use Rattle.std.specs.Prelude.{◌≡◌, true, false, is_ok};
ghost use Rattle.disk.specs.Medium.{cut};
ghost use Rattle.ordered.specs.Model.{model};
ghost use Rattle.ordered.specs.Opening.{open_answer, flush_leaves, made, Starts, Ends};

use crate::cold::Cold;
use crate::live::Live;
use disk::disk::BenchDisk;
use errors::VolumeError;
use precedence::Precedence;
use table::rows::Table;
use table::tally::Counts;

impl<D: BenchDisk> Cold<D> {
    // Flushes the disk. On a fault the volume stays cold.
    pub fn open(&mut self) -> Result<(), VolumeError>
        ensures answer { result ≡ open_answer D.Disk.attempts (D.Disk.medium self.old.disk) }
        ensures after { D.Disk.medium self.new.disk ≡ flush_leaves (D.Disk.medium self.old.disk) }
        ensures accepted { self.new.accepted ≡ is_ok result }
    {
        self.accepted = false;
        self.disk.flush()?;
        self.accepted = true;
        Ok(())
    }

    // An accepted volume becomes a live and empty cache: a run starts. It cannot be refused.
    pub fn into_live<P: Precedence>(self, order: P) -> Live<D, P>
        requires { self.accepted ≡ true }
        ensures after { model D.Disk.medium result ≡ made (D.Disk.medium self.disk) }
        ensures order { result.order ≡ order }
        ensures runs { Starts (P.before order) (D.Disk.medium self.disk) (model D.Disk.medium result) }
    {
        let Cold { disk, accepted: _ } = self;
        Live {
            disk,
            order,
            table: Table::new(),
            counter: 0,
            counts: Counts::default(),
        }
    }
}

impl<D: BenchDisk, P: Precedence + Drop> Live<D, P> {
    // Ends the cache: its disk, cut, is a cold volume.
    pub fn cut(self, choice: u8) -> Cold<D>
        ensures after { D.Disk.medium result.disk ≡ cut choice (D.Disk.medium self.disk) }
        ensures cold { result.accepted ≡ false }
        ensures runs { Ends (P.Precedence.before self.order) (model D.Disk.medium self) (D.Disk.medium result.disk) }
    {
        let Live {
            mut disk,
            order: _,
            table: _,
            counter: _,
            counts: _,
        } = self;
        disk.cut(choice);
        Cold::new(disk)
    }
}
