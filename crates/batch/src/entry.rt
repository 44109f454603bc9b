ghost use Rattle.std.specs.Prelude.{◌≡◌};

use disk::disk::BLOCK;

// A write with its begin mark.
#[derive(Clone, Copy, Default)]
pub struct Entry {
    pub mark: u32,
    pub place: usize,
    pub bytes: [u8; BLOCK],
}

impl Entry {
    pub fn new(mark: u32, place: usize, bytes: &[u8; BLOCK]) -> Entry
        ensures { result ≡ record { mark = mark; place = place; bytes = bytes.now } }
    {
        Entry {
            mark,
            place,
            bytes: *bytes,
        }
    }
}
