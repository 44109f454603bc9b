// A disk of its own, with a rule of its own: writes at the even place join if none is loose, those at the odd place settle.
// The disk of the crate `mixed_disk` goes by the place alone; this rule changes as the disk does.
ghost use Rattle.std.specs.Prelude.{◌≡◌, length};
ghost use Rattle.std.specs.Option.{ForSome};
ghost use Rattle.disk.specs.Medium.{flushed};
ghost use Rattle.ordered_tests.specs.Mixing.{mixed, mixed_rule, blank};
ghost use Rattle.ordered_tests.specs.Soundness.{mixed_sound};

use disk::disk::{BLOCK, BenchDisk, Disk};
use disk::error::DiskError;

const SIZE: usize = 2;

#[derive(Drop)]
pub struct Mixed {
    even: [u8; BLOCK],
    odd: [u8; BLOCK],
    // the bytes of a loose write of the even place
    loose: Option<[u8; BLOCK]>,
    ghost even_full: { length even ≡ 512 },
    ghost odd_full: { length odd ≡ 512 },
    ghost loose_full: { ForSome loose (λ b. length b ≡ 512) },
}

impl Mixed {
    // Two zero blocks.
    pub fn new() -> Mixed
        ensures { mixed result.even result.odd result.loose ≡ blank }
    {
        Mixed {
            even: [0; BLOCK],
            odd: [0; BLOCK],
            loose: None,
        }
    }

    // A loose write becomes firm.
    fn settle(&mut self)
        ensures { mixed self.new.even self.new.odd self.new.loose ≡ flushed (mixed self.old.even self.old.odd self.old.loose) }
    {
        if let Some(loose) = self.loose.take() {
            self.even = loose;
        }
    }
}

impl Disk for Mixed {
    ghost medium = { λ d. mixed d.even d.odd d.loose };

    ghost attempts = { 1 };

    ghost rule = { λ d w. mixed_rule d.loose w };

    ghost sound = { λ d. mixed_sound d.even d.odd d.loose d.even_full d.odd_full d.loose_full };

    fn tries() -> u32 {
        1
    }

    fn size(&self) -> usize {
        SIZE
    }

    fn read(&mut self, place: usize, buffer: &mut [u8]) -> Result<(), DiskError> {
        let block = buffer.as_mut_array::<BLOCK>().ok_or(DiskError::Length)?;
        if place >= SIZE {
            return Err(DiskError::Place);
        }
        *block = if place == 0 {
            self.loose.unwrap_or(self.even)
        } else {
            self.odd
        };
        Ok(())
    }

    fn write(&mut self, place: usize, bytes: &[u8]) -> Result<(), DiskError> {
        let block = bytes.as_array::<BLOCK>().ok_or(DiskError::Length)?;
        if place >= SIZE {
            return Err(DiskError::Place);
        }
        if place != 0 {
            self.settle();
            self.odd = *block;
        } else if self.loose.take().is_some() {
            self.even = *block;
        } else {
            self.loose = Some(*block);
        }
        Ok(())
    }

    fn flush(&mut self) -> Result<(), DiskError> {
        self.settle();
        Ok(())
    }
}

impl BenchDisk for Mixed {
    fn cut(&mut self, choice: u8) {
        if choice % 2 == 1 {
            self.settle();
        }
        self.loose = None;
    }
}
