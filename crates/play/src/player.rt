// A cache that plays the calls of a trace, one after the other.
ghost use Rattle.std.specs.Prelude.{◌≡◌, List, [], ◌∷◌, ◌++◌, Ok, None, OnOk};
ghost use Rattle.trace.specs.declared.call.TraceCall.{TraceCall as Called};
ghost use Rattle.trace.specs.declared.call.TraceCall.TheVariants.{Cut};
ghost use Rattle.trace.specs.Calls.{cut_choice};
ghost use Rattle.listing.specs.declared.line.Line.{Line as Told};
ghost use Rattle.listing.specs.Answers.{answer_value};
ghost use Rattle.listing.specs.Lines.{told, by_value};

use listing::answer::Answer;
use listing::line::Line;
use listing::play_error::PlayError;
use std::alloc::AllocError;
use trace::call::TraceCall;

pub(crate) trait Player: Sized {
    // what is known of it between calls
    ghost Fit: { Self → Type 0 };

    // the lines of so many calls, from here on
    ghost lines: { Self → List Called → List Told };

    // Plays one more call, which is no cut.
    fn play(&mut self, call: TraceCall) -> Result<Answer, PlayError>
        requires fit { Fit self.old }
        requires no_cut { cut_choice call ≡ None }
        ensures line { (rest : List Called) → lines self.old (call ∷ rest) ≡ told call (by_value result) ∷ lines self.new rest }
        ensures fit { Fit self.new };

    // Plays a cut: the cache over the volume that is taken up again, and the cut's answer.
    fn play_cut(self, choice: u8) -> (Self, Answer)
        requires { Fit self }
        ensures line { (rest : List Called) → lines self (Cut choice ∷ rest) ≡ told (Cut choice) (Ok (answer_value result.1)) ∷ lines result.0 rest }
        ensures fit { Fit result.0 };

    ghost ends: { (p : Self) → lines p [] ≡ [] };
}

// Plays the calls, and adds a line for each.
pub(crate) fn play_calls<C: Player + Drop>(
    mut cache: C,
    calls: &[TraceCall],
    lines: &mut Vec<Line>,
) -> Result<(), AllocError>
    requires { C.Fit cache }
    ensures { OnOk result (lines.new.items ≡ lines.old.items ++ C.lines cache calls.now) }
{
    for call in calls {
        let answer = match call.cut_choice() {
            None => cache.play(*call),
            Some(choice) => {
                let (next, answer) = cache.play_cut(choice);
                cache = next;
                Ok(answer)
            }
        };
        lines.push(Line::new(*call, answer.map(Answer::value)))?;
    }
    Ok(())
}
