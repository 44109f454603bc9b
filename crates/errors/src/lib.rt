// What volumes and caches answer: why they refuse, and what a step did. Each error holds the one of the layer below, so that a disk's fault comes up whole.
#![tactic(auto)]

ghost use Rattle.std.specs.Prelude.{◌≡◌};
ghost use Rattle.errors.specs.Errors.{from_disk, raised, volume_number, cache_number, volume_fault, cache_fault, progress_number};

use disk::error::{DiskError, Fault};

// Why a volume refuses.
#[derive(Clone, Copy, PartialEq, Eq, Debug)]
pub enum VolumeError {
    // the disk's own refusal
    Disk(DiskError),
    // the block at the head's place is not a head
    NoHead,
    // the disk has no room for a head and eight slots
    TooSmall,
}

impl From<DiskError> for VolumeError {
    ghost from_gives = { λ e v. v ≡ from_disk e };

    fn from(error: DiskError) -> VolumeError {
        VolumeError::Disk(error)
    }
}

impl VolumeError {
    pub fn number(self) -> u8
        ensures { result ≡ volume_number self }
    {
        match self {
            VolumeError::Disk(error) => error.number(),
            VolumeError::NoHead => 11,
            VolumeError::TooSmall => 12,
        }
    }

    // The fault of the disk, where the refusal is one.
    pub fn fault(self) -> Option<Fault>
        ensures { result ≡ volume_fault self }
    {
        match self {
            VolumeError::Disk(DiskError::Fault(fault)) => Some(fault),
            _ => None,
        }
    }
}

// A call of a live cache that may call the disk.
#[derive(Clone, Copy, PartialEq, Eq, Debug)]
pub enum CacheCall {
    Read,
    Step,
}

// No mark lies above this.
pub const LAST_MARK: u32 = 1_000_000;

// Why a live cache refuses.
#[derive(Clone, Copy, PartialEq, Eq, Debug)]
pub enum CacheError {
    // the bytes or the buffer are not one block
    Length,
    // the place is not one of the cache's
    Place,
    // the place has an open write
    PlaceOpen,
    // there is no room for one more write
    NoRoom,
    // too few marks are left
    NoMarks,
    // no open write has the ticket
    NoTicket,
    // nothing is collected that could be sealed
    NothingCollected,
    // a group is under way
    GroupUnderWay,
    // the last group number is used
    NoNumbers,
    // the volume refused while this call was under way
    Volume(CacheCall, VolumeError),
}

impl CacheError {
    pub fn number(self) -> u8
        ensures { result ≡ cache_number self }
    {
        match self {
            CacheError::Length => 1,
            CacheError::Place => 2,
            CacheError::PlaceOpen => 3,
            CacheError::NoRoom => 4,
            CacheError::NoMarks => 5,
            CacheError::NoTicket => 6,
            CacheError::NothingCollected => 8,
            CacheError::GroupUnderWay => 9,
            CacheError::NoNumbers => 10,
            CacheError::Volume(_, error) => error.number(),
        }
    }

    // The fault of the disk, where the refusal is one.
    pub fn fault(self) -> Option<Fault>
        ensures { result ≡ cache_fault self }
    {
        match self {
            CacheError::Volume(_, error) => error.fault(),
            _ => None,
        }
    }
}

// The disk's answer as the cache hands it up: a refusal comes with the call that was under way.
pub fn during(call: CacheCall, answer: Result<(), DiskError>) -> Result<(), CacheError>
    ensures { result ≡ raised call answer }
{
    answer.map_err(|error| CacheError::Volume(call, error.into()))
}

// What a step of a live cache did.
#[derive(Clone, Copy, PartialEq, Eq, Debug)]
pub enum Progress {
    // there was nothing to do
    Idle = 0,
    // one block was written to the disk
    Written = 1,
    // the disk was flushed
    Flushed = 2,
    // something waits, but an open write precedes it; a journaled cache never answers so
    Blocked = 3,
}

impl Progress {
    pub fn number(self) -> u8
        ensures { result ≡ progress_number self }
    {
        self as u8
    }
}
