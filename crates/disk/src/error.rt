ghost use Rattle.std.specs.Prelude.{◌≡◌};
ghost use Rattle.disk.specs.Calls.{number, kind_number};

// The kind of call that a fault answers.
#[derive(Clone, Copy, PartialEq, Eq, Debug)]
pub enum Kind {
    Read = 1,
    Write = 2,
    Flush = 3,
}

impl Kind {
    // The number by which it is known.
    pub fn number(self) -> u8
        ensures { result ≡ kind_number self }
    {
        self as u8
    }
}

// A call that the disk did not carry out: its kind, its place (0 for a flush) and how often it was tried.
#[derive(Clone, Copy, PartialEq, Eq, Debug)]
pub struct Fault {
    pub kind: Kind,
    pub place: usize,
    pub tries: u32,
}

// Why a disk refuses a call.
#[derive(Clone, Copy, PartialEq, Eq, Debug)]
pub enum DiskError {
    // the buffer or the bytes are not one block
    Length,
    // the place is not below the disk's size
    Place,
    // the call failed, and nothing but the plan has changed
    Fault(Fault),
}

impl DiskError {
    // The number by which it is known, which does not tell a fault's call: a method, since a variant with a field has no discriminant.
    pub fn number(self) -> u8
        ensures { result ≡ number self }
    {
        match self {
            DiskError::Length => 1,
            DiskError::Place => 2,
            DiskError::Fault(_) => 7,
        }
    }
}
