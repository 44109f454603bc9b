// Assembles the text on standard input: the trace goes to standard output, a mistake to standard error.
#![tactic(auto)]

use anyhow::anyhow;
use assembly::assembling::{TEXT_MAX, assemble_bytes};
use std::io::{Read, Write};

// The text, and one byte more where it is too long.
fn read_text(rt: &HostRuntime) -> anyhow::Result<Vec<u8>> {
    let mut text = Vec::new(rt.alloc());
    // The cast loses nothing: a `usize` has no more bits than a `u64`.
    rt.stdin().take(TEXT_MAX as u64 + 1).read_to_end(&mut text)?;
    Ok(text)
}

fn main(rt: HostRuntime) -> anyhow::Result<()> {
    let text = read_text(&rt)?;
    match assemble_bytes(rt.alloc(), &text) {
        Ok(bytes) => {
            rt.stdout().write_all(&bytes)?;
            Ok(())
        }
        Err(error) => {
            eprintln!(rt; "{error}")?;
            Err(anyhow!("the text gives no trace"))
        }
    }
}
