ghost use Rattle.std.specs.Prelude.{◌≡◌, ok_or};
ghost use Rattle.trace.specs.Calls.{mode_byte, mode_of, flag_of, code_of, call_bytes, call_from, cut_choice};
ghost use Rattle.trace.specs.declared.decoding.DecodeError.TheVariants.{Malformed};

use crate::decoding::DecodeError;

// The bytes of an encoded call.
pub const CALL_BYTES: usize = 4;

// Which cache is played.
#[derive(Clone, Copy, PartialEq, Eq, Debug)]
pub enum Mode {
    // the ordered cache under the precedence of overlap
    Overlap = 0,
    // the ordered cache under the precedence of line
    Line = 1,
    // the journaled cache
    Journaled = 2,
}

// The byte that stands for the mode.
impl From<Mode> for u8 {
    ghost from_gives = { λ mode byte. byte ≡ mode_byte mode };

    fn from(mode: Mode) -> u8 {
        mode as u8
    }
}

// The mode that the byte stands for, if it stands for one.
impl TryFrom<u8> for Mode {
    type Error = DecodeError;

    ghost try_from_gives = { λ byte mode. mode ≡ ok_or (mode_of byte) Malformed };

    fn try_from(byte: u8) -> Result<Mode, DecodeError> {
        match byte {
            0 => Ok(Mode::Overlap),
            1 => Ok(Mode::Line),
            2 => Ok(Mode::Journaled),
            _ => Err(DecodeError::Malformed),
        }
    }
}

// Whether a retry layer stands on the disk, from the number of layers.
// A function: both types are the library's, and it has no such conversion.
pub fn flag_from_byte(byte: u8) -> Option<bool>
    ensures { result ≡ flag_of byte }
{
    match byte {
        0 => Some(false),
        1 => Some(true),
        _ => None,
    }
}

// A call of the list.
#[derive(Clone, Copy, PartialEq, Eq, Debug)]
pub enum TraceCall {
    // a write of a block of fill bytes
    Begin { place: u16, fill: u8 },
    Finish { ticket: u16 },
    Withdraw { ticket: u16 },
    Read { place: u16 },
    Step,
    Seal,
    Restart { choice: u8 },
    Cut { choice: u8 },
}

impl TraceCall {
    pub fn code(self) -> u8
        ensures { result ≡ code_of self }
    {
        match self {
            TraceCall::Begin { .. } => 1,
            TraceCall::Finish { .. } => 2,
            TraceCall::Withdraw { .. } => 3,
            TraceCall::Read { .. } => 4,
            TraceCall::Step => 5,
            TraceCall::Seal => 6,
            TraceCall::Restart { .. } => 7,
            TraceCall::Cut { .. } => 8,
        }
    }

    // The choice of a cut; none where the call is another.
    pub fn cut_choice(self) -> Option<u8>
        ensures { result ≡ cut_choice self }
    {
        match self {
            TraceCall::Cut { choice } => Some(choice),
            _ => None,
        }
    }
}

// The four bytes: code, number (the lower byte first) and fill, those that the call has no use for 0.
impl From<TraceCall> for [u8; CALL_BYTES] {
    ghost from_gives = { λ call bytes. bytes ≡ call_bytes call };

    fn from(call: TraceCall) -> [u8; CALL_BYTES] {
        let (number, fill): (u16, u8) = match call {
            TraceCall::Begin { place, fill } => (place, fill),
            TraceCall::Finish { ticket } | TraceCall::Withdraw { ticket } => (ticket, 0),
            TraceCall::Read { place } => (place, 0),
            TraceCall::Step | TraceCall::Seal => (0, 0),
            TraceCall::Restart { choice } | TraceCall::Cut { choice } => (0, choice),
        };
        let [low, high] = number.to_le_bytes();
        [call.code(), low, high, fill]
    }
}

// The call in four bytes, unless the code is no call's.
impl TryFrom<[u8; CALL_BYTES]> for TraceCall {
    type Error = DecodeError;

    ghost try_from_gives = { λ bytes call. call ≡ ok_or (call_from bytes) Malformed };

    fn try_from(bytes: [u8; CALL_BYTES]) -> Result<TraceCall, DecodeError> {
        let [code, low, high, fill] = bytes;
        let number = u16::from_le_bytes([low, high]);
        match code {
            1 => Ok(TraceCall::Begin {
                place: number,
                fill,
            }),
            2 => Ok(TraceCall::Finish { ticket: number }),
            3 => Ok(TraceCall::Withdraw { ticket: number }),
            4 => Ok(TraceCall::Read { place: number }),
            5 => Ok(TraceCall::Step),
            6 => Ok(TraceCall::Seal),
            7 => Ok(TraceCall::Restart { choice: fill }),
            8 => Ok(TraceCall::Cut { choice: fill }),
            _ => Err(DecodeError::Malformed),
        }
    }
}
