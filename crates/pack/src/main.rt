// Turns the text on standard input, one hexadecimal word to a line, into a program image on standard output, or says on
// standard error which line is wrong.
#![tactic(auto)]

use anyhow::ensure;
use packing::pack::pack;
use packing::text::words_of;
use std::io::{Read, Write};
use std::process::ExitCode;

// The most bytes of text that are read.
const MOST_BYTES: usize = 1_048_576;

fn read_text(rt: &HostRuntime) -> anyhow::Result<Vec<u8>> {
    let mut text = Vec::new(rt.alloc());
    rt.stdin()
        .take(MOST_BYTES as u64 + 1)
        .read_to_end(&mut text)?;
    ensure!(
        text.len() <= MOST_BYTES,
        "more than {MOST_BYTES} bytes of text"
    );
    Ok(text)
}

fn write_image(rt: &HostRuntime) -> anyhow::Result<()> {
    let text = read_text(rt)?;
    let words = words_of(rt.alloc(), text.as_slice())?;
    let image = pack(rt.alloc(), words.as_slice())?;
    rt.stdout().write_all(image.as_slice())?;
    Ok(())
}

// The error is one line on standard error; a returned `Err` would be printed once more.
fn main(rt: HostRuntime) -> anyhow::Result<ExitCode> {
    if let Err(error) = write_image(&rt) {
        eprintln!(rt; "{error}")?;
        return Ok(ExitCode::FAILURE);
    }
    Ok(ExitCode::SUCCESS)
}
