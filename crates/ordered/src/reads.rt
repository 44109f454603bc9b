// The read: the newest finished write of the place in the table, or else the disk.
ghost use Rattle.std.specs.Prelude.{◌≡◌, length};
ghost use Rattle.ordered_law.specs.Events.{Read};
ghost use Rattle.ordered_law.specs.Cache.{read_call};
ghost use Rattle.ordered_law.specs.Runs.{RunsOn};
ghost use Rattle.ordered.specs.Model.{model, gives, device};
ghost use Rattle.ordered.specs.Reading.{read_as, buffer_after, ReadsNewest};

use crate::live::Live;
use disk::disk::{BLOCK, BenchDisk};
use errors::{CacheCall, CacheError, during};
use precedence::Precedence;
use table::scan::newest_at;

impl<D: BenchDisk, P: Precedence> Live<D, P> {
    // Fills the buffer with the place's block; a refusal leaves the buffer.
    pub fn read(&mut self, place: usize, buffer: &mut [u8]) -> Result<(), CacheError>
        ensures outcome { gives (read_as result buffer.new) (model D.Disk.medium self.new) ≡ read_call (device D.Disk.rule D.Disk.attempts P.before self.old) place (length buffer.old) (model D.Disk.medium self.old) }
        ensures buffer { buffer.new ≡ buffer_after buffer.old (read_call (device D.Disk.rule D.Disk.attempts P.before self.old) place (length buffer.old) (model D.Disk.medium self.old)).answer }
        ensures newest { ReadsNewest (P.before self.old.order) (model D.Disk.medium self.old) place result buffer.new }
        ensures order { self.new.order ≡ self.old.order }
        ensures runs { RunsOn (P.before self.old.order) (Read place (length buffer.old)) (model D.Disk.medium self.old) (read_as result buffer.new) (model D.Disk.medium self.new) }
    {
        // A test, and no array by `try_from`: nothing below names the block by its type.
        if buffer.len() != BLOCK {
            return Err(CacheError::Length);
        }
        if place >= self.disk.size() {
            return Err(CacheError::Place);
        }
        if let Some(newest) = newest_at(&self.table, place) {
            buffer.copy_from_slice(self.table.bytes(newest.row));
            return Ok(());
        }
        during(CacheCall::Read, self.disk.read(place, buffer))
    }
}
