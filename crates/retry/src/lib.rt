// A layer over any bench disk that makes a failed call again.
#![tactic(auto)]

ghost use Rattle.std.specs.Prelude.{◌≡◌, Err};
ghost use Rattle.disk.specs.Medium.{Alike};
ghost use Rattle.disk.specs.Calls.{answer, failed, is_fault};
ghost use Rattle.retry.specs.Retried.{retry_medium, tripled, Tries};
ghost use Rattle.retry.specs.Soundness.{retry_sound};

use disk::disk::{BenchDisk, Disk, JoiningDisk};
use disk::error::{DiskError, Fault, Kind};

// How often a call is made at most.
const TRIES: u32 = 3;

// Makes each call of the disk below up to three times, and stops at the first good answer.
#[derive(Drop)]
pub struct Retry<D> {
    disk: D,
}

impl<D: BenchDisk> Retry<D> {
    // The layer is alike to the disk that it stands on.
    pub fn new(disk: D) -> Retry<D>
        ensures value { result ≡ record { disk = disk } }
        ensures alike { Alike (retry_medium (D.Disk.medium result.disk)) (D.Disk.medium disk) }
    {
        Retry { disk }
    }

    // Ends the layer, and gives the disk below back.
    pub fn into_disk(self) -> D
        ensures value { result ≡ self.disk }
        ensures alike { Alike (retry_medium (D.Disk.medium self.disk)) (D.Disk.medium result) }
    {
        let Retry { disk } = self;
        disk
    }

    // The fault of a call that failed three times.
    fn fault(kind: Kind, place: usize) -> DiskError
        ensures { Err result ≡ answer (tripled D.Disk.attempts) kind place failed }
    {
        DiskError::Fault(Fault {
            kind,
            place,
            tries: Self::tries(),
        })
    }

    // Makes the call up to three times, and answers the first that is no fault; after three, a fault of this kind at this place.
    fn tried<F: FnMut() -> Result<(), DiskError>>(
        kind: Kind,
        place: usize,
        call: &mut F,
    ) -> Result<(), DiskError>
        requires { F.IsAlwaysCallable call.old }
        ensures { Tries F.step 3 (answer (tripled D.Disk.attempts) kind place failed) call.old result call.new }
    {
        for attempt in 0..TRIES {
            let answer = call();
            if !faulty(&answer) {
                return answer;
            }
        }
        Err(Self::fault(kind, place))
    }
}

// Whether the call failed and may be made again.
fn faulty(answer: &Result<(), DiskError>) -> bool
    ensures { result ≡ is_fault answer.now }
{
    matches!(answer, Err(DiskError::Fault(_)))
}

impl<D: BenchDisk> Disk for Retry<D> {
    ghost medium = { λ r. retry_medium (D.Disk.medium r.disk) };

    ghost attempts = { tripled D.Disk.attempts };

    ghost rule = { λ r w. D.Disk.rule r.disk w };

    ghost sound = { λ r. retry_sound (D.Disk.medium r.disk) (D.Disk.sound r.disk) };

    fn tries() -> u32 {
        D::tries().saturating_mul(TRIES)
    }

    fn size(&self) -> usize {
        self.disk.size()
    }

    fn read(&mut self, place: usize, buffer: &mut [u8]) -> Result<(), DiskError> {
        Self::tried(Kind::Read, place, &mut || self.disk.read(place, buffer))
    }

    fn write(&mut self, place: usize, bytes: &[u8]) -> Result<(), DiskError> {
        Self::tried(Kind::Write, place, &mut || self.disk.write(place, bytes))
    }

    fn flush(&mut self) -> Result<(), DiskError> {
        Self::tried(Kind::Flush, 0, &mut || self.disk.flush())
    }
}

impl<D: BenchDisk> BenchDisk for Retry<D> {
    fn cut(&mut self, choice: u8) {
        self.disk.cut(choice);
    }
}

impl<D: JoiningDisk> JoiningDisk for Retry<D> {
    ghost joins = { λ r w. D.joins r.disk w };
}
