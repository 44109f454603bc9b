// What a power cut does to a mark of two blocks, told in words.
#![tactic(auto)]

mod acts;
mod cached;
mod count;
mod route;
mod trial_error;

use acts::{Act, old_disk, seen_after};
use cached::{every_cut, tell_drain};
use count::{Count, NEW, OLD};
use disk::disk::BenchDisk;
use journal::live::Live as JournaledCache;
use mark::{Mark, Verdict};
use memdisk::held::HeldDisk;
use memdisk::through::ThroughDisk;
use memdisk::unusable::Unusable;
use ordered::live::Live as OrderedCache;
use precedence::Overlap;
use trial_error::TrialError;

// Room for a mark.
const BLOCKS: usize = 2;

// Three faults on the way: the plan's first entries go into the old mark and the opening, or the format and the recovery.
const ORDERED_FAULTS: [u8; 8] = [0, 0, 0, 0, 1, 0, 1, 1];

const GROUP_FAULTS: [u8; 11] = [0, 0, 0, 0, 0, 0, 0, 1, 0, 1, 1];

// Which version of a part of the mark is seen.
fn version(is_new: bool) -> &'static str {
    if is_new { "new" } else { "old" }
}

// Tells what a reader believes after this cut, and counts it.
fn tell(rt: &HostRuntime, choice: u8, seen: &Mark) -> Result<Count, TrialError> {
    let side = version(seen.side == NEW.side);
    let distance = version(seen.millimetres == NEW.millimetres);
    print!(rt; "  cut {choice}: side {side}, distance {distance}: reads {seen}")?;
    match seen.judge(&OLD, &NEW) {
        Verdict::Old => println!(rt; ", the old mark")?,
        Verdict::New => println!(rt; ", the new mark")?,
        Verdict::Torn => println!(rt; " for {NEW}, TORN")?,
    }
    Ok(Count::of(seen))
}

// Every cut below `choices` after these acts, each on a disk of its own.
fn on_disk<D: BenchDisk + Drop, F: Fn(Vec<u8>, Vec<u8>) -> Result<D, Unusable>>(
    rt: &HostRuntime,
    make: F,
    title: &str,
    acts: &[Act],
    choices: u8,
) -> Result<Count, TrialError>
    requires { F.IsAlwaysCallable make }
{
    println!(rt; "{title}")?;
    let mut count = Count::default();
    for choice in 0..choices {
        let disk = old_disk(rt.alloc(), &make, BLOCKS, &[])?;
        count = count + tell(rt, choice, &seen_after(disk, acts, choice)?)?;
    }
    Ok(count)
}

// The bare disks. On a through disk no write is loose, and every choice is the same.
fn without_cache(rt: &HostRuntime) -> Result<Count, TrialError> {
    let both = [Act::Side, Act::Distance];
    let apart = [Act::Side, Act::Flush, Act::Distance];
    let first = [Act::Side];
    let held = HeldDisk::new;
    let through = ThroughDisk::new;
    let count = on_disk(rt, held, "Held disk, both written:", &both, 4)?
        + on_disk(rt, held, "Held disk, a flush between the two:", &apart, 2)?
        + on_disk(
            rt,
            held,
            "Held disk, power fails between the two:",
            &first,
            2,
        )?
        + on_disk(rt, through, "Through disk, both written:", &both, 1)?
        + on_disk(
            rt,
            through,
            "Through disk, power fails between the two:",
            &first,
            1,
        )?;
    Ok(count)
}

// The caches, each over a held disk.
fn with_caches(rt: &HostRuntime) -> Result<(), TrialError> {
    println!(rt; "Ordered cache, the distance begun once the side is finished:")?;
    let count = every_cut::<OrderedCache<HeldDisk, Overlap>>(rt)?;
    sum_up(rt, count, "the order holds, and two writes are not one")?;
    println!(rt; "Journaled cache, both in one group:")?;
    let count = every_cut::<JournaledCache<HeldDisk>>(rt)?;
    sum_up(rt, count, "a group comes whole or not at all")
}

fn sum_up(rt: &HostRuntime, count: Count, lesson: &str) -> Result<(), TrialError> {
    let torn = count.torn;
    let ahead = count.ahead;
    let cuts = count.cuts();
    println!(rt;
        "{torn} of {cuts} cuts tore the mark, {ahead} showed the distance without the side: {lesson}."
    )?;
    Ok(())
}

fn drains(rt: &HostRuntime) -> Result<(), TrialError> {
    println!(rt; "Longest drains seen, each beside its bound:")?;
    tell_drain::<OrderedCache<HeldDisk, Overlap>>(rt, "ordered, two writes and no fault", &[])?;
    tell_drain::<OrderedCache<HeldDisk, Overlap>>(
        rt,
        "ordered, two writes and three faults",
        &ORDERED_FAULTS,
    )?;
    tell_drain::<JournaledCache<HeldDisk>>(rt, "group of two, no fault", &[])?;
    tell_drain::<JournaledCache<HeldDisk>>(rt, "group of two, three faults", &GROUP_FAULTS)
}

fn main(rt: HostRuntime) -> Result<(), TrialError> {
    println!(rt; "A mark is two blocks: the side of the weld, and the distance off it.")?;
    println!(rt; "The old mark is {OLD}, and {NEW} is written over it.")?;
    let count = without_cache(&rt)?;
    let torn = count.torn;
    let cuts = count.cuts();
    println!(rt;
        "{torn} of {cuts} cuts tore the mark: a flush orders two blocks, and does not make them one."
    )?;
    with_caches(&rt)?;
    drains(&rt)
}
