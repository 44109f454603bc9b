use disk::error::DiskError;
use errors::{CacheError, VolumeError};
use memdisk::unusable::Unusable;
use std::alloc::AllocError;
use std::io;
use thiserror::Error;

// What can end a trial early.
#[derive(Debug, Drop, Error)]
pub enum TrialError {
    #[error("the disk refuses: {0:?}")]
    Disk(#[from] DiskError),
    #[error("the volume refuses: {0:?}")]
    Volume(#[from] VolumeError),
    #[error("the cache refuses: {0:?}")]
    Cache(#[from] CacheError),
    #[error("the drain goes on and on")]
    Endless,
    #[error("no disk can be made of {0:?}")]
    Unusable(#[from] Unusable),
    #[error("memory ran out")]
    Memory,
    #[error(transparent)]
    Output(#[from] io::Error),
}

impl From<AllocError> for TrialError {
    fn from(_: AllocError) -> TrialError {
        TrialError::Memory
    }
}
