// The read: what is collected, then the sealed group, then the disk.
ghost use Rattle.std.specs.Prelude.{◌≡◌, ◌++◌, length};
ghost use Rattle.std.specs.Option.{option_map};
ghost use Rattle.journal_law.specs.Cache.{read as read_call, cached, group_writes};
ghost use Rattle.journal_law.specs.Laws.{RunsOn};
ghost use Rattle.batch.specs.Options.{maybe};
ghost use Rattle.batch.specs.Rows.{write_list};
ghost use Rattle.group.specs.Groups.{under_way};
ghost use Rattle.journal.specs.Model.{model, does, read_as, filled};

use crate::live::Live;
use disk::disk::{BLOCK, BenchDisk};
use errors::{CacheCall, CacheError, during};

impl<D: BenchDisk> Live<D> {
    // The bytes that the cache itself holds for the place.
    fn cached(&self, place: usize) -> Option<&[u8; BLOCK]>
        ensures { maybe (option_map (λ b. b.now) result) ≡ cached place (write_list self.now.collected ++ group_writes (under_way self.now.group)) }
    {
        if let Some(bytes) = self.collected.bytes_at(place) {
            return Some(bytes);
        }
        self.group.as_ref()?.group.writes.bytes_at(place)
    }

    // Fills the buffer with the place's block; a refusal leaves the buffer.
    pub fn read(&mut self, place: usize, buffer: &mut [u8]) -> Result<(), CacheError>
        ensures outcome { record { answer = read_as result buffer.new; live = model D.Disk.medium self.new } ≡ does D.Disk.medium D.Disk.rule D.Disk.attempts self.old (read_call place (length buffer.old)) }
        ensures buffer { buffer.new ≡ filled buffer.old (does D.Disk.medium D.Disk.rule D.Disk.attempts self.old (read_call place (length buffer.old))).answer }
        ensures runs { RunsOn (read_call place (length buffer.old)) (model D.Disk.medium self.old) (read_as result buffer.new) (model D.Disk.medium self.new) }
    {
        // The disk fills a slice, so that its length is tested, and no block made of it.
        if buffer.len() != BLOCK {
            return Err(CacheError::Length);
        }
        if place >= self.home {
            return Err(CacheError::Place);
        }
        if let Some(bytes) = self.cached(place) {
            buffer.copy_from_slice(bytes);
            return Ok(());
        }
        during(CacheCall::Read, self.disk.read(place, buffer))
    }
}
