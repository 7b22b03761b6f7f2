// Prints every word of the image on standard input with its address and its instruction, or why the image is refused.
#![tactic(auto)]

use console::show_input;
use image::Image;
use isa::Disassembly;
use std::io::Write;

fn print_words<W: Write>(out: &mut W, image: &Image) -> anyhow::Result<()> {
    for (address, word) in (0..=u32::MAX).step_by(4).zip(image.words()) {
        let text = Disassembly::of(address, word);
        writeln!(out, "{address:08x} {word:08x} {text}")?;
    }
    Ok(())
}

fn main(rt: HostRuntime) -> anyhow::Result<()> {
    show_input(&rt, |out, image| print_words(out, image))
}
