// The words that have a meaning.
ghost use Rattle.std.specs.Prelude.{◌≡◌};
ghost use Rattle.assembly.specs.Keywords.{mode_of, entry_of, call_word_of, keyword_of};

use trace::call::Mode;

// The first word of a line that is a call.
#[derive(Clone, Copy)]
pub(crate) enum CallWord {
    Begin,
    Finish,
    Withdraw,
    Read,
    Step,
    Seal,
    Restart,
    Cut,
}

// The first word of a line.
#[derive(Clone, Copy)]
pub(crate) enum Keyword {
    Mode,
    Retry,
    Plan,
    Call(CallWord),
}

pub(crate) fn mode_named(word: &[u8]) -> Option<Mode>
    ensures { result ≡ mode_of word.now }
{
    match word {
        b"overlap" => Some(Mode::Overlap),
        b"line" => Some(Mode::Line),
        b"journaled" => Some(Mode::Journaled),
        _ => None,
    }
}

// Whether an entry of a plan is bad.
pub(crate) fn entry_named(word: &[u8]) -> Option<bool>
    ensures { result ≡ entry_of word.now }
{
    match word {
        b"good" => Some(false),
        b"bad" => Some(true),
        _ => None,
    }
}

fn call_named(word: &[u8]) -> Option<CallWord>
    ensures { result ≡ call_word_of word.now }
{
    match word {
        b"begin" => Some(CallWord::Begin),
        b"finish" => Some(CallWord::Finish),
        b"withdraw" => Some(CallWord::Withdraw),
        b"read" => Some(CallWord::Read),
        b"step" => Some(CallWord::Step),
        b"seal" => Some(CallWord::Seal),
        b"restart" => Some(CallWord::Restart),
        b"cut" => Some(CallWord::Cut),
        _ => None,
    }
}

pub(crate) fn keyword_named(word: &[u8]) -> Option<Keyword>
    ensures { result ≡ keyword_of word.now }
{
    match word {
        b"mode" => Some(Keyword::Mode),
        b"retry" => Some(Keyword::Retry),
        b"plan" => Some(Keyword::Plan),
        _ => call_named(word).map(Keyword::Call),
    }
}
