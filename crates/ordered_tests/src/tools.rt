use disk::disk::{BLOCK, BenchDisk};
use errors::CacheError;
use ordered::cold::Cold;
use ordered::live::Live;
use precedence::Precedence;
use std::test::Fail;
use test_tools::checks;
use test_tools::disks::SHORT;

// A cache over the disk, opened.
pub(crate) fn live<D: BenchDisk + Drop, P: Precedence + Drop>(
    disk: D,
    order: P,
) -> Result<Live<D, P>, Fail> {
    let mut cold = Cold::new(disk);
    cold.open()?;
    Ok(cold.into_live(order))
}

// A call of the cache, as the lines of a test name it. The tests of the journaled cache have a list of their own, with a seal and no tally: a
// trait that forwards what the two caches share would be longer than what it saves. A line of a test is data, and no closure.
#[derive(Clone, Copy)]
pub(crate) enum Ask {
    // a place, and the byte that fills its block
    Begin(usize, u8),
    // a begin with bytes that are no block
    BeginShort(usize),
    Finish(u32),
    Withdraw(u32),
    Read(usize),
    Step,
    Restart(u8),
    // the counts of a tally
    Waiting,
    Sent,
    Home,
}

// Makes the call; the answer is its mark, byte, step or count, or 0 where it has none.
fn make<D: BenchDisk, P: Precedence>(cache: &mut Live<D, P>, call: Ask) -> Result<u32, CacheError> {
    Ok(match call {
        Ask::Begin(place, byte) => cache.begin(place, &[byte; BLOCK])?,
        Ask::BeginShort(place) => cache.begin(place, &[1; SHORT])?,
        Ask::Finish(ticket) => cache.finish(ticket)?,
        Ask::Withdraw(ticket) => {
            cache.withdraw(ticket)?;
            0
        }
        Ask::Read(place) => {
            let mut buffer = [0; BLOCK];
            cache.read(place, &mut buffer)?;
            u32::from(buffer[0])
        }
        Ask::Step => u32::from(cache.step()?.number()),
        Ask::Restart(choice) => {
            cache.restart(choice);
            0
        }
        Ask::Waiting => cache.tally().waiting,
        Ask::Sent => cache.tally().sent,
        Ask::Home => cache.tally().home,
    })
}

// Makes the calls in turn, and holds each to its answer, or to the number of its refusal.
// By number, so that the numbers of docs/RULES.md are tested too.
pub(crate) fn play<D: BenchDisk, P: Precedence>(
    cache: &mut Live<D, P>,
    lines: &[(Ask, Result<u32, u8>)],
) -> Result<(), Fail> {
    checks::play(|call| make(cache, call).map_err(CacheError::number), lines)
}
