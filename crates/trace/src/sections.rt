// The sections of an encoded trace, as parts of the input.
ghost use Rattle.std.specs.Prelude.{◌≡◌, ◌≤◌};
ghost use Rattle.std.specs.Option.{option_map};
ghost use Rattle.trace.specs.Format.{section as section_of, sections as sections_of, all_entries};
ghost use Rattle.trace.specs.Lent.{both_now, sections_now};

use crate::call::{CALL_BYTES, Mode, flag_from_byte};
use crate::trace::{CALLS_MAX, PLAN_MAX};

// How many options there are.
pub(crate) const OPTIONS: u8 = 2;

// The options, and the bytes of the plan and of the calls.
#[derive(Clone, Copy)]
pub(crate) struct Sections<'a> {
    pub mode: Mode,
    pub retry: bool,
    pub plan: &'a [u8],
    pub calls: &'a [u8],
}

// A section's entries, at most so many and each of one width, and what follows them.
fn section(bytes: &[u8], most: usize, width: usize) -> Option<(&[u8], &[u8])>
    requires { width ≤ 4 }
    ensures { option_map both_now result ≡ section_of most width bytes.now }
{
    let (count, rest) = bytes.split_first_chunk()?;
    let count = usize::from(u16::from_le_bytes(*count));
    if count > most {
        return None;
    }
    rest.split_at_checked(count * width)
}

// The three sections, if the input is made of them and nothing else.
pub(crate) fn split(bytes: &[u8]) -> Option<Sections<'_>>
    ensures { option_map sections_now result ≡ sections_of bytes.now }
{
    let [OPTIONS, mode, retry, rest @ ..] = bytes else {
        return None;
    };
    // By `ok`: none of the parts has another refusal; `decode` names it once.
    let mode = Mode::try_from(*mode).ok()?;
    let retry = flag_from_byte(*retry)?;
    let (plan, rest) = section(rest, PLAN_MAX, 1)?;
    let (calls, rest) = section(rest, CALLS_MAX, CALL_BYTES)?;
    rest.is_empty().then_some(Sections {
        mode,
        retry,
        plan,
        calls,
    })
}

// Whether each byte is an entry of a plan, 0 or 1.
// memdisk has the same test: neither crate stands on the other.
pub(crate) fn are_entries(bytes: &[u8]) -> bool
    ensures { result ≡ all_entries bytes.now }
{
    bytes.iter().all(|byte| *byte <= 1)
}
