use disk::disk::{BLOCK, BenchDisk};
use errors::{CacheError, Progress, VolumeError};
use journal::live::Live;
use journal_volume::cold::Cold;
use std::test::Fail;
use test_tools::checks;
use test_tools::checks::{check, check_eq};
use test_tools::disks::SHORT;

// A format of the volume; a refusal is told by its number, so that the numbers of docs/RULES.md are tested too.
pub(crate) fn format<D: BenchDisk>(cold: &mut Cold<D>) -> Result<(), u8> {
    cold.format().map_err(VolumeError::number)
}

// A recovery of the volume: the number recovered; a refusal is told by its number, as that of a format.
pub(crate) fn recover<D: BenchDisk>(cold: &mut Cold<D>) -> Result<u32, u8> {
    cold.recover().map_err(VolumeError::number)
}

// A cache over the volume, which has to recover this number.
pub(crate) fn recovered<D: BenchDisk + Drop>(
    mut cold: Cold<D>,
    number: u32,
) -> Result<Live<D>, Fail> {
    let found = cold.recover()?;
    check_eq(found, number)?;
    Ok(Live::new(cold))
}

// A cache over the disk, formatted and recovered: four calls of the disk.
pub(crate) fn live<D: BenchDisk + Drop>(disk: D) -> Result<Live<D>, Fail> {
    let mut cold = Cold::new(disk);
    cold.format()?;
    recovered(cold, 0)
}

// A call of the cache, as the lines of a test name it. The tests of the ordered cache have a list of their own, with a tally and no seal: a
// trait that forwards what the two caches share would be longer than what it saves. A line of a test is data, and no closure.
#[derive(Clone, Copy)]
pub(crate) enum Ask {
    // a place, and the byte that fills its block
    Begin(usize, u8),
    // a begin with bytes that are no block
    BeginShort(usize),
    Finish(u32),
    Withdraw(u32),
    Read(usize),
    Seal,
    Step,
    Restart(u8),
}

// Makes the call; the answer is its mark, byte, number or step, or 0 where it has none.
fn make<D: BenchDisk>(cache: &mut Live<D>, call: Ask) -> Result<u32, CacheError> {
    Ok(match call {
        Ask::Begin(place, byte) => cache.begin(place, &[byte; BLOCK])?,
        Ask::BeginShort(place) => cache.begin(place, &[1; SHORT])?,
        Ask::Finish(ticket) => cache.finish(ticket)?,
        Ask::Withdraw(ticket) => {
            cache.withdraw(ticket)?;
            0
        }
        Ask::Read(place) => {
            let mut buffer = [0; BLOCK];
            cache.read(place, &mut buffer)?;
            u32::from(buffer[0])
        }
        Ask::Seal => cache.seal()?,
        Ask::Step => u32::from(cache.step()?.number()),
        Ask::Restart(choice) => {
            cache.restart(choice);
            0
        }
    })
}

// Makes the calls in turn, and holds each to its answer, or to the number of its refusal.
// By number, so that the numbers of docs/RULES.md are tested too.
pub(crate) fn play<D: BenchDisk>(
    cache: &mut Live<D>,
    lines: &[(Ask, Result<u32, u8>)],
) -> Result<(), Fail> {
    checks::play(|call| make(cache, call).map_err(CacheError::number), lines)
}

// Makes steps, none of them idle.
pub(crate) fn busy<D: BenchDisk>(cache: &mut Live<D>, steps: u32) -> Result<(), Fail> {
    for _ in 0..steps {
        let progress = cache.step()?;
        check(matches!(progress, Progress::Written | Progress::Flushed))?;
    }
    Ok(())
}
