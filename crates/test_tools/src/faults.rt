ghost use Rattle.std.specs.Prelude.{◌≡◌};
ghost use Rattle.test_tools.specs.Faults.{fault_during};

use disk::error::{DiskError, Fault};
use errors::{CacheCall, CacheError, VolumeError};

// The fault that a refusal during this call hands up.
pub fn fault_during<T: Drop>(call: CacheCall, answer: Result<T, CacheError>) -> Option<Fault>
    ensures { result ≡ fault_during call answer }
{
    match answer {
        Err(CacheError::Volume(during, VolumeError::Disk(DiskError::Fault(fault))))
            if during == call => Some(fault),
        _ => None,
    }
}
