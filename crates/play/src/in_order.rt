// Plays the calls of a trace on the ordered cache.
ghost use Rattle.std.specs.Prelude.{◌≡◌, true, refl, None};
ghost use Rattle.trace.specs.Calls.{cut_choice};
ghost use Rattle.disk.specs.Medium.{join};
ghost use Rattle.ordered.specs.Model.{model};
ghost use Rattle.ordered.specs.Opening.{made as made_over};
ghost use Rattle.play.specs.InOrder.{opened_until, called, lines_from};
ghost use Rattle.play.specs.Telling.{answered};

use crate::player::Player;
use disk::disk::{BLOCK, BenchDisk, JoiningDisk};
use listing::answer::Answer;
use listing::play_error::PlayError;
use ordered::cold::Cold;
use ordered::live::Live;
use precedence::Precedence;
use trace::call::TraceCall;

// A live cache, and the precedence that it keeps.
#[derive(Drop)]
pub(crate) struct InOrder<D, P> {
    live: Live<D, P>,
    order: P,
}

// An ordered cache over a disk that is opened.
pub(crate) fn in_order<D: BenchDisk, P: Precedence + Copy>(disk: D, order: P) -> InOrder<D, P>
    ensures after { model D.Disk.medium result.live ≡ made_over (opened_until (D.Disk.medium disk)) }
    ensures order { (result.order ≡ order) × (result.live.order ≡ order) }
{
    InOrder {
        live: taken_up(Cold::new(disk), order),
        order,
    }
}

// Opens the volume, again and again until its flush is good: each that fails takes an entry off the plan.
// A loop of one line, as for format and recovery: a shared one would take the call as a closure with the law of its tries.
fn open_until<D: BenchDisk>(cold: &mut Cold<D>)
    ensures after { D.Disk.medium cold.new.disk ≡ opened_until (D.Disk.medium cold.old.disk) }
    ensures accepted { cold.new.accepted ≡ true }
{
    while cold.open().is_err() {}
}

// A live cache over a volume that is taken up cold.
fn taken_up<D: BenchDisk, P: Precedence>(mut cold: Cold<D>, order: P) -> Live<D, P>
    ensures after { model D.Disk.medium result ≡ made_over (opened_until (D.Disk.medium cold.disk)) }
    ensures order { result.order ≡ order }
{
    open_until(&mut cold);
    cold.into_live(order)
}

// What a call answers, which is no cut.
// The journaled cache's is another function: a trait of the calls of both would state the seven contracts of a cache once more, which is longer than these arms.
fn answer_to<D: JoiningDisk, P: Precedence>(
    live: &mut Live<D, P>,
    call: TraceCall,
) -> Result<Answer, PlayError>
    requires { cut_choice call ≡ None }
    ensures outcome { answered result (model D.Disk.medium live.new) ≡ called (P.before live.old.order) (record { rule = join; tries = D.Disk.attempts }) call (model D.Disk.medium live.old) }
    ensures order { live.new.order ≡ live.old.order }
{
    match call {
        TraceCall::Begin { place, fill } => {
            let ticket = live.begin(usize::from(place), &[fill; BLOCK])?;
            Ok(Answer::Ticket(ticket))
        }
        TraceCall::Finish { ticket } => {
            let mark = live.finish(u32::from(ticket))?;
            Ok(Answer::Mark(mark))
        }
        TraceCall::Withdraw { ticket } => {
            live.withdraw(u32::from(ticket))?;
            Ok(Answer::Withdrawn)
        }
        TraceCall::Read { place } => {
            let mut buffer = [0; BLOCK];
            live.read(usize::from(place), &mut buffer)?;
            Ok(Answer::FirstByte(buffer[0]))
        }
        TraceCall::Step => {
            let progress = live.step()?;
            Ok(Answer::Step(progress))
        }
        TraceCall::Seal => Err(PlayError::SealInOrder),
        TraceCall::Restart { choice } => {
            live.restart(choice);
            Ok(Answer::Restarted)
        }
        TraceCall::Cut { .. } => unreachable!(),
    }
}

impl<D: JoiningDisk + Drop, P: Precedence + Copy + Drop> Player for InOrder<D, P> {
    ghost Fit = { λ p. p.live.order ≡ p.order };

    ghost lines = { λ p calls. lines_from (P.Precedence.before p.order) (record { rule = join; tries = D.Disk.attempts }) (model D.Disk.medium p.live) calls };

    fn play(&mut self, call: TraceCall) -> Result<Answer, PlayError> {
        answer_to(&mut self.live, call)
    }

    fn play_cut(self, choice: u8) -> (InOrder<D, P>, Answer) {
        let InOrder { live, order } = self;
        let live = taken_up(live.cut(choice), order);
        (InOrder { live, order }, Answer::Opened)
    }

    ghost ends = { λ p. refl };
}
