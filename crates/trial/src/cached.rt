// Every cut of a mark on its way through a cache, and how long the way is.
use crate::count::Count;
use crate::route::Route;
use crate::trial_error::TrialError;
use errors::Progress;

// No drain of the trial is longer.
const MOST_STEPS: usize = 32;

// Makes the steps; the answer is how many choices tell cuts apart: each write doubles them, a flush leaves one.
fn make_steps<R: Route>(cache: &mut R, steps: usize) -> Result<u8, TrialError> {
    let mut choices = 1u8;
    for _ in 0..steps {
        choices = match cache.go_on()? {
            Progress::Written => choices.saturating_mul(2),
            Progress::Flushed => 1,
            Progress::Idle | Progress::Blocked => choices,
        };
    }
    Ok(choices)
}

// Every cut after these steps, each with a cache of its own.
fn after_steps<R: Route + Drop>(rt: &HostRuntime, steps: usize) -> Result<Count, TrialError> {
    let mut cache = R::taken_up(rt.alloc(), &[])?;
    let choices = make_steps(&mut cache, steps)?;
    let mut count = Count::default();
    for choice in 0..choices {
        let mut cache = R::taken_up(rt.alloc(), &[])?;
        make_steps(&mut cache, steps)?;
        count = count + Count::of(&cache.seen_after(choice)?);
    }
    Ok(count)
}

// Every cut after every step, a line for each step.
pub(crate) fn every_cut<R: Route + Drop>(rt: &HostRuntime) -> Result<Count, TrialError> {
    let mut total = Count::default();
    for steps in 0..=R::bound(0) {
        let count = after_steps::<R>(rt, steps)?;
        let cuts = count.cuts();
        let old = count.old;
        let new = count.new;
        let torn = count.torn;
        println!(rt; "  step {steps}: cuts {cuts}, old {old}, new {new}, torn {torn}")?;
        total = total + count;
    }
    Ok(total)
}

// The steps until the cache is idle; a disk's fault does not end them.
fn drained<R: Route>(cache: &mut R) -> Result<usize, TrialError> {
    for steps in 0..MOST_STEPS {
        match cache.go_on() {
            Ok(Progress::Idle) => return Ok(steps),
            Ok(_) => {}
            Err(error) if error.fault().is_some() => {}
            Err(error) => return Err(error.into()),
        }
    }
    Err(TrialError::Endless)
}

// Tells the length of a drain by this plan, beside its bound.
pub(crate) fn tell_drain<R: Route + Drop>(
    rt: &HostRuntime,
    title: &str,
    plan: &[u8],
) -> Result<(), TrialError> {
    let mut cache = R::taken_up(rt.alloc(), plan)?;
    let steps = drained(&mut cache)?;
    let faults = plan.iter().filter(|bad| **bad == 1).count();
    let bound = R::bound(faults);
    println!(rt; "  {title}: {steps} steps, bound {bound}")?;
    Ok(())
}
