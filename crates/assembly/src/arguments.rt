// What follows the first word of a line.
ghost use Rattle.std.specs.Prelude.{◌≡◌};
ghost use Rattle.assembly.specs.Words.{words};
ghost use Rattle.assembly.specs.Arguments.{number_in, byte_in, mode_in, retry_in, begin_in, alone_in, call_in};

use crate::keywords::{CallWord, mode_named};
use crate::numbers::{byte, number};
use crate::words::{first_word, only_word};
use trace::call::{Mode, TraceCall, flag_from_byte};

// The only word, as a number.
fn only_number(bytes: &[u8]) -> Option<u16>
    ensures { result ≡ number_in (words bytes.now) }
{
    number(only_word(bytes)?)
}

// The only word, as a byte.
fn only_byte(bytes: &[u8]) -> Option<u8>
    ensures { result ≡ byte_in (words bytes.now) }
{
    byte(only_word(bytes)?)
}

pub(crate) fn mode_in(bytes: &[u8]) -> Option<Mode>
    ensures { result ≡ mode_in (words bytes.now) }
{
    mode_named(only_word(bytes)?)
}

// Whether there is a retry layer, from the number of layers.
pub(crate) fn retry_in(bytes: &[u8]) -> Option<bool>
    ensures { result ≡ retry_in (words bytes.now) }
{
    flag_from_byte(only_byte(bytes)?)
}

// A place, the word `fill` and a byte.
fn begun(bytes: &[u8]) -> Option<TraceCall>
    ensures { result ≡ begin_in (words bytes.now) }
{
    let (place, rest) = first_word(bytes)?;
    let (name, rest) = first_word(rest)?;
    let b"fill" = name else {
        return None;
    };
    let place = number(place)?;
    let fill = only_byte(rest)?;
    Some(TraceCall::Begin { place, fill })
}

// A call that has no argument.
fn alone(bytes: &[u8], call: TraceCall) -> Option<TraceCall>
    ensures { result ≡ alone_in call (words bytes.now) }
{
    first_word(bytes).is_none().then_some(call)
}

// The call of a line's first word and what follows it.
pub(crate) fn call_with(word: CallWord, bytes: &[u8]) -> Option<TraceCall>
    ensures { result ≡ call_in word (words bytes.now) }
{
    match word {
        CallWord::Begin => begun(bytes),
        CallWord::Finish => only_number(bytes).map(|ticket| TraceCall::Finish { ticket }),
        CallWord::Withdraw => only_number(bytes).map(|ticket| TraceCall::Withdraw { ticket }),
        CallWord::Read => only_number(bytes).map(|place| TraceCall::Read { place }),
        CallWord::Step => alone(bytes, TraceCall::Step),
        CallWord::Seal => alone(bytes, TraceCall::Seal),
        CallWord::Restart => only_byte(bytes).map(|choice| TraceCall::Restart { choice }),
        CallWord::Cut => only_byte(bytes).map(|choice| TraceCall::Cut { choice }),
    }
}
