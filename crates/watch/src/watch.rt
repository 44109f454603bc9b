ghost use Rattle.std.specs.Prelude.{◌≡◌, ℕ, if◌then◌else◌, ◌≢◌, nat_eq, None, Option};
ghost use Rattle.trace.specs.declared.call.TraceCall.{TraceCall as Called};
ghost use Rattle.narration.specs.declared.deed.Deed.{Deed as Told};

use listing::line::Line;
use narration::deed::Deed;
use trace::call::TraceCall;

// Follows a cache by the calls that it accepted, and their answers.
pub trait Watch {
    // what an accepted call with this answer wrote, if it wrote
    ghost deed: { Self → Called → ℕ → Option Told };

    // the watch after that call
    ghost moves: { Self → Called → ℕ → Self → Type 0 };

    // One more accepted call, with the value of its line: any number, since a line may hold any.
    fn note(&mut self, call: TraceCall, value: u32) -> Option<Deed>
        ensures told { result ≡ deed self.old call value }
        ensures after { moves self.old call value self.new };
}

// What the call of a line wrote, if it wrote. A refused call changes nothing.
pub fn deed_of<W: Watch>(watch: &mut W, call: TraceCall, line: Line) -> Option<Deed>
    ensures told { result ≡ (if nat_eq line.answer 0 then W.deed watch.old call line.value else None) }
    ensures accepted { line.answer ≡ 0 → W.moves watch.old call line.value watch.new }
    ensures refused { (line.answer ≢ 0) → watch.new ≡ watch.old }
{
    if line.answer == 0 {
        watch.note(call, line.value)
    } else {
        None
    }
}
