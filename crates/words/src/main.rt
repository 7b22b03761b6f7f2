// Prints every word on standard input with its instruction, as it reads at address 0. A word is a line of eight
// hexadecimal digits.
#![tactic(auto)]

use hexadecimal::word_in;
use isa::Disassembly;
use std::io::{BufRead, BufReader};

mod hexadecimal;

fn main(rt: HostRuntime) -> anyhow::Result<()> {
    let lines = BufReader::new(rt.alloc(), rt.stdin())?.lines(rt.alloc());
    for (number, line) in (1..=u64::MAX).zip(lines) {
        match word_in(line?.as_str()) {
            Some(word) => {
                let text = Disassembly::of(0, word);
                println!(rt; "{word:08x} {text}")?;
            }
            None => println!(rt; "line {number}: not a word")?,
        }
    }
    Ok(())
}
