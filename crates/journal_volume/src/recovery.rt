// The disk calls of recovery, part by part. Each part goes on from where the recovery stands, or ends it by a fault.
ghost use Rattle.std.specs.Prelude.{◌≡◌, ◌+◌, ◌≤◌, true};
ghost use Rattle.disk.specs.Medium.{size};
ghost use Rattle.head.specs.Head.{fits as fitting};
ghost use Rattle.head.specs.Codes.{head_of};
ghost use Rattle.journal_law.specs.Recovery.{home_flush, recovered};

use disk::disk::{BLOCK, Disk};
use disk::error::DiskError;
use head::codec::decode;
use head::head::Head;

// The head that was found on a volume of so many home blocks: what recovery brings home.
#[derive(Drop)]
pub(crate) struct Found {
    home: usize,
    pub(crate) head: Head,
    ghost room: { home ≤ 4087 },
    ghost fit: { fitting home (head_of head) ≡ true },
}

impl Found {
    ghost use Rattle.journal_volume.specs.Recovering.{at, turn, OfRule, Goes, Sees, seen_stage};

    // Flushes, and reads the head.
    pub(crate) fn read<D: Disk>(disk: &mut D, home: usize) -> Result<Option<Found>, DiskError>
        requires sized { size (D.medium disk.old) ≡ home + 9 }
        requires room { home ≤ 4087 }
        ensures { Sees (OfRule D.rule) D.attempts home (D.medium disk.old) result (D.medium disk.new) }
    {
        let mut block = [0u8; BLOCK];
        disk.flush()?;
        disk.read(home, &mut block)?;
        let Some(head) = decode(home, &block) else {
            return Ok(None);
        };
        Ok(Some(Found { home, head }))
    }

    // Reads every slot, in turn, and writes it to its home place.
    fn copy_slots<D: Disk>(&self, disk: &mut D) -> Result<(), DiskError>
        requires { size (D.medium disk.old) ≡ self.now.home + 9 }
        ensures { Goes (OfRule D.rule) D.attempts self.now.home (at (turn 0 (head_of self.now.head)) (D.medium disk.old)) (home_flush (head_of self.now.head)) result (D.medium disk.new) }
    {
        for (i, place) in self.head.places().iter().enumerate() {
            let mut block = [0u8; BLOCK];
            disk.read(self.home + 1 + i, &mut block)?;
            disk.write(*place, &block)?;
        }
        Ok(())
    }

    // Flushes, writes the empty head, and flushes.
    fn clear<D: Disk>(&self, disk: &mut D) -> Result<(), DiskError>
        requires { size (D.medium disk.old) ≡ self.now.home + 9 }
        ensures { Goes (OfRule D.rule) D.attempts self.now.home (at (home_flush (head_of self.now.head)) (D.medium disk.old)) (recovered self.now.head.number) result (D.medium disk.new) }
    {
        let empty = Head::empty(self.head.number).encode();
        disk.flush()?;
        disk.write(self.home, &empty)?;
        disk.flush()
    }

    // Brings a group home, if the head names one.
    pub(crate) fn restore<D: Disk>(&self, disk: &mut D) -> Result<(), DiskError>
        requires { size (D.medium disk.old) ≡ self.now.home + 9 }
        ensures { Goes (OfRule D.rule) D.attempts self.now.home (at (seen_stage (head_of self.now.head)) (D.medium disk.old)) (recovered self.now.head.number) result (D.medium disk.new) }
    {
        if self.head.len() == 0 {
            return Ok(());
        }
        self.copy_slots(disk)?;
        self.clear(disk)
    }
}
