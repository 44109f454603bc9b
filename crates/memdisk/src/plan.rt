ghost use Rattle.std.specs.Prelude.{◌≡◌};
ghost use Rattle.disk.specs.Calls.{answer, by_entry};
ghost use Rattle.disk.specs.Medium.{due, later};
ghost use Rattle.memdisk.specs.Memory.{entries, all_entries};
ghost use Rattle.memdisk.specs.Parts.{plan_of};
ghost use Rattle.memdisk.specs.Admission.{Admits};

use disk::error::{DiskError, Fault, Kind};
use std::vec::IntoIter;

// The bytes of a plan's entries, as docs/RULES.md gives them.
const GOOD: u8 = 0;

const BAD: u8 = 1;

// Which of the calls to come will fail: the bytes of the entries that are left.
#[derive(Drop)]
pub struct Plan {
    pub bytes: IntoIter<u8>,
}

// Whether each byte is an entry of a plan.
pub(crate) fn all_entries(bytes: &[u8]) -> bool
    ensures { result ≡ all_entries bytes.now }
{
    bytes.iter().all(|b| *b <= BAD)
}

impl Plan {
    // The plan of these bytes.
    pub(crate) fn new(bytes: Vec<u8>) -> Plan
        ensures { plan_of result ≡ entries bytes.items }
    {
        Plan {
            bytes: bytes.into_iter(),
        }
    }

    // Takes the next entry off the plan: a fault of this call if it is to fail.
    pub(crate) fn pass(&mut self, kind: Kind, place: usize) -> Result<(), DiskError>
        ensures answer { result ≡ answer 1 kind place (by_entry (due (plan_of self.old))) }
        ensures after { plan_of self.new ≡ later (plan_of self.old) }
    {
        match self.bytes.next() {
            None | Some(GOOD) => Ok(()),
            Some(_) => Err(DiskError::Fault(Fault {
                kind,
                place,
                tries: 1,
            })),
        }
    }

    // The checks of a read or a write of a block on a disk of this size, and then its entry.
    pub(crate) fn admit(&mut self, size: usize, kind: Kind, place: usize) -> Result<(), DiskError>
        ensures { Admits size (plan_of self.old) kind place 512 result (plan_of self.new) }
    {
        if place >= size {
            return Err(DiskError::Place);
        }
        self.pass(kind, place)
    }
}
