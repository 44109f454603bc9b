// Plays the trace on standard input; the listing goes to standard output.
#![tactic(auto)]

use input::{ROOM, read_input};
use play::output::output;

fn main(rt: HostRuntime) -> anyhow::Result<()> {
    let mut buffer = [0; ROOM];
    let input = read_input(&rt, &mut buffer)?;
    let text = output(rt.alloc(), input)?;
    rt.print(text)?;
    Ok(())
}
