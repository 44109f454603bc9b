// A cold volume, which can only be opened: it has neither begin nor read.
ghost use Rattle.std.specs.Prelude.{◌≡◌, false};

use disk::disk::BenchDisk;

#[derive(Drop)]
pub struct Cold<D> {
    pub(crate) disk: D,
    // whether the last opening was accepted: a flag and no second type, since a volume whose opening was refused stays cold and is opened again
    pub(crate) accepted: bool,
}

impl<D: BenchDisk> Cold<D> {
    // A volume not yet opened.
    pub fn new(disk: D) -> Cold<D>
        ensures { result ≡ record { disk = disk; accepted = false } }
    {
        Cold {
            disk,
            accepted: false,
        }
    }

    // Whether the last opening was accepted.
    pub fn is_accepted(&self) -> bool
        ensures { result ≡ self.now.accepted }
    {
        self.accepted
    }
}
