// Plays the calls of a trace on the journaled cache.
ghost use Rattle.std.specs.Prelude.{◌≡◌, ◌≤◌, refl, None};
ghost use Rattle.trace.specs.Calls.{cut_choice};
ghost use Rattle.disk.specs.Medium.{join, size};
ghost use Rattle.journal.specs.Model.{model};
ghost use Rattle.play.specs.InJournal.{formatted_until, recovered_until, live_from, called, lines_from};
ghost use Rattle.play.specs.Telling.{answered};
ghost use Rattle.play.specs.Histories.{Running};

use crate::player::Player;
use crate::volumes::{format_until, recover_until};
use disk::disk::{BLOCK, JoiningDisk};
use journal::live::Live;
use journal_volume::cold::Cold;
use listing::answer::Answer;
use listing::play_error::PlayError;
use trace::call::TraceCall;

// A journaled cache over a disk that is formatted and recovered.
pub(crate) fn journaled<D: JoiningDisk>(disk: D) -> Live<D>
    requires room { 10 ≤ size (D.Disk.medium disk) }
    ensures after { model D.Disk.medium result ≡ live_from (recovered_until (formatted_until D.Disk.attempts (D.Disk.medium disk))) }
    ensures running { Running (model D.Disk.medium result) }
{
    let mut volume = Cold::new(disk);
    format_until(&mut volume);
    let _ = recover_until(&mut volume);
    Live::new(volume)
}

// What a call answers, which is no cut.
fn answer_to<D: JoiningDisk>(live: &mut Live<D>, call: TraceCall) -> Result<Answer, PlayError>
    requires { cut_choice call ≡ None }
    ensures { answered result (model D.Disk.medium live.new) ≡ called (record { effect = join; tries = D.Disk.attempts }) call (model D.Disk.medium live.old) }
{
    match call {
        TraceCall::Begin { place, fill } => {
            let ticket = live.begin(usize::from(place), &[fill; BLOCK])?;
            Ok(Answer::Ticket(ticket))
        }
        TraceCall::Finish { ticket } => {
            let mark = live.finish(u32::from(ticket))?;
            Ok(Answer::Mark(mark))
        }
        TraceCall::Withdraw { ticket } => {
            live.withdraw(u32::from(ticket))?;
            Ok(Answer::Withdrawn)
        }
        TraceCall::Read { place } => {
            let mut buffer = [0; BLOCK];
            live.read(usize::from(place), &mut buffer)?;
            Ok(Answer::FirstByte(buffer[0]))
        }
        TraceCall::Step => {
            let progress = live.step()?;
            Ok(Answer::Step(progress))
        }
        TraceCall::Seal => {
            let number = live.seal()?;
            Ok(Answer::Group(number))
        }
        TraceCall::Restart { choice } => {
            live.restart(choice);
            Ok(Answer::Restarted)
        }
        TraceCall::Cut { .. } => unreachable!(),
    }
}

impl<D: JoiningDisk + Drop> Player for Live<D> {
    ghost Fit = { λ live. Running (model D.Disk.medium live) };

    ghost lines = { λ live calls. lines_from (record { effect = join; tries = D.Disk.attempts }) (model D.Disk.medium live) calls };

    fn play(&mut self, call: TraceCall) -> Result<Answer, PlayError> {
        answer_to(self, call)
    }

    fn play_cut(self, choice: u8) -> (Live<D>, Answer) {
        let mut cold = self.cut(choice);
        let number = recover_until(&mut cold);
        (Live::new(cold), Answer::Recovered(number))
    }

    ghost ends = { λ live. refl };
}
