// The input of the programs that take a trace.
#![tactic(auto)]

ghost use Rattle.std.specs.Prelude.{◌≤◌, length, IfOk};

use std::io;
use std::io::Read;

// The bytes of the longest trace, and one more: an input that fills the buffer is no trace.
pub const ROOM: usize = 4264;

// Reads standard input into the buffer, up to its end or the buffer's, and gives the part that was read.
pub fn read_input<'a>(rt: &HostRuntime, buffer: &'a mut [u8; ROOM]) -> io::Result<&'a [u8]>
    ensures { IfOk result (λ input. length input.now ≤ 4264) }
{
    let mut stdin = rt.stdin();
    let mut length = 0;
    // A loop over a buffer: the library reads to an end only into a `Vec`, and no contract bounds its length then.
    while length < ROOM {
        let more = stdin.read(&mut buffer[length..])?;
        if more == 0 {
            break;
        }
        length += more;
    }
    Ok(&buffer[..length])
}
