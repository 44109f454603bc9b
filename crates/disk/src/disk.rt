ghost use Rattle.std.specs.Prelude.{◌≡◌, ℕ, true};
ghost use Rattle.disk.specs.Medium.{Medium, Write, Effect, join, size, Sound, cut};
ghost use Rattle.disk.specs.Calls.{Reads, WritesBy, JoinedOrSettled, Flushes, is_fault};

use crate::error::DiskError;

// The bytes of a block.
pub const BLOCK: usize = 512;

// How many writes may be loose.
pub const LOOSE_MAX: usize = 8;

// A block disk: `medium` is what an implementation means.
pub trait Disk {
    ghost medium: { Self → Medium };

    // how often a failed call was made
    ghost attempts: { ℕ };

    // the disk's own rule: what a good write does while fewer than eight are loose
    ghost rule: { Self → Write → Effect };

    fn tries() -> u32
        ensures { result ≡ attempts };

    fn size(&self) -> usize
        ensures { result ≡ size (medium self.now) };

    // Fills the buffer with the current block of the place.
    fn read(&mut self, place: usize, buffer: &mut [u8]) -> Result<(), DiskError>
        ensures { Reads attempts (medium self.old) place buffer.old result (medium self.new) buffer.new };

    // Accepts the bytes as the place's block. A flush or a settling write makes it firm.
    fn write(&mut self, place: usize, bytes: &[u8]) -> Result<(), DiskError>
        ensures outcome { WritesBy (rule self.old (record { place = place; bytes = bytes.now })) attempts (medium self.old) place bytes.now result (medium self.new) }
        ensures either { JoinedOrSettled (medium self.old) place bytes.now (medium self.new) }
        ensures keeps { is_fault result ≡ true → (w : Write) → rule self.new w ≡ rule self.old w };

    // Makes every loose write firm.
    fn flush(&mut self) -> Result<(), DiskError>
        ensures { Flushes attempts (medium self.old) result (medium self.new) };

    ghost sound: { (d : Self) → Sound (medium d) };
}

// A disk that can also be cut, as by a power failure.
pub trait BenchDisk: Disk {
    // Loose write number i, the oldest being 0, stands if bit i of the choice is set; the others vanish.
    fn cut(&mut self, choice: u8)
        ensures { Self.Disk.medium self.new ≡ cut choice (Self.Disk.medium self.old) };
}

// A bench disk on which every good write joins the loose ones while fewer than eight are.
pub trait JoiningDisk: BenchDisk {
    ghost joins: { (d : Self) (w : Write) → Self.Disk.rule d w ≡ join };
}
