ghost use Rattle.std.specs.Prelude.{◌≡◌, true};
ghost use Rattle.group.specs.Phases.{in_turn, wrote_to, flushed_to, advanced};

use crate::phase::Phase;
use errors::{CacheError, Progress};

// Where the group stands after a good call; no phase is left when it leaves the cache.
#[derive(Clone, Copy)]
pub struct Turn {
    pub phase: Option<Phase>,
    pub progress: Progress,
}

impl Turn {
    fn written(phase: Phase) -> Result<Turn, CacheError>
        ensures { result ≡ wrote_to phase }
    {
        Ok(Turn {
            phase: Some(phase),
            progress: Progress::Written,
        })
    }

    fn flushed(phase: Option<Phase>) -> Result<Turn, CacheError>
        ensures { result ≡ flushed_to phase }
    {
        Ok(Turn {
            phase,
            progress: Progress::Flushed,
        })
    }
}

// From a phase and the disk's answer to the next state. A fault leaves phase and turn.
// One match of the phase and the disk's answer: the rules want the machine in this form.
pub fn advance(
    phase: Phase,
    blocks: usize,
    answer: Result<(), CacheError>,
) -> Result<Turn, CacheError>
    requires { in_turn phase blocks ≡ true }
    ensures { result ≡ advanced blocks phase answer }
{
    match (phase, answer) {
        (_, Err(error)) => Err(error),
        (Phase::Slot(i), Ok(())) if i + 1 < blocks => Turn::written(Phase::Slot(i + 1)),
        (Phase::Slot(_), Ok(())) => Turn::written(Phase::SlotsFlush),
        (Phase::SlotsFlush, Ok(())) => Turn::flushed(Some(Phase::Head)),
        (Phase::Head, Ok(())) => Turn::written(Phase::HeadFlush),
        (Phase::HeadFlush, Ok(())) => Turn::flushed(Some(Phase::Home(0))),
        (Phase::Home(i), Ok(())) if i + 1 < blocks => Turn::written(Phase::Home(i + 1)),
        (Phase::Home(_), Ok(())) => Turn::written(Phase::HomesFlush),
        (Phase::HomesFlush, Ok(())) => Turn::flushed(Some(Phase::Empty)),
        (Phase::Empty, Ok(())) => Turn::written(Phase::EmptyFlush),
        (Phase::EmptyFlush, Ok(())) => Turn::flushed(None),
    }
}
