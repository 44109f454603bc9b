ghost use Rattle.std.specs.Prelude.{◌≡◌};
ghost use Rattle.listing.specs.Errors.{from_cache, play_number, play_fault, play_value};

use disk::error::Fault;
use errors::CacheError;

// Why a call of a trace is refused.
#[derive(Clone, Copy, PartialEq, Eq, Debug)]
pub enum PlayError {
    // only the journaled cache seals
    SealInOrder,
    // the cache's own refusal
    Cache(CacheError),
}

impl From<CacheError> for PlayError {
    ghost from_gives = { λ e p. p ≡ from_cache e };

    fn from(error: CacheError) -> PlayError {
        PlayError::Cache(error)
    }
}

impl PlayError {
    pub fn number(self) -> u8
        ensures { result ≡ play_number self }
    {
        match self {
            PlayError::SealInOrder => 15,
            PlayError::Cache(error) => error.number(),
        }
    }

    // The fault of the disk, where the refusal is one.
    pub fn fault(self) -> Option<Fault>
        ensures { result ≡ play_fault self }
    {
        match self {
            PlayError::SealInOrder => None,
            PlayError::Cache(error) => error.fault(),
        }
    }

    // The tries of a fault; 0 of any other refusal.
    pub fn value(self) -> u32
        ensures { result ≡ play_value self }
    {
        self.fault().map_or(0, |fault| fault.tries)
    }
}
