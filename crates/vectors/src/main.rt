// Runs many images from standard input, one after another, and prints all that can be seen of each: the listing, the
// registers, flags and data after it, and the stepper's events. What it must print comes from the second model.
#![tactic(auto)]

use console::{DATA_WORDS, print_events, print_listing, show_image, stepped, with_memories};
use image::Image;
use memory::store::Memory;
use pipeline::state::Core;
use std::alloc::Global;
use std::io::{BufWriter, Read, Write};

// The most clocks and the most steps of an image.
const LIMIT: u32 = 200;

// The most images, and the most bytes of them all.
const MOST_IMAGES: u32 = 1000;

const MOST_BYTES: u64 = 8_000_000;

// The first image, which stands behind its length in four bytes, and the bytes behind it.
fn first_image(bytes: &[u8]) -> Option<(&[u8], &[u8])> {
    let (length, rest) = bytes.split_first_chunk::<4>()?;
    rest.split_at_checked(u32::from_le_bytes(*length) as usize)
}

// Registers and words are asked for by number and address: there is no list of either to go over.
fn print_state<W: Write, M: Memory>(out: &mut W, core: &Core, memory: &M) -> anyhow::Result<()> {
    write!(out, "registers")?;
    for number in 0..15u8 {
        let value = core.register(number).unwrap_or(0);
        write!(out, " {value:08x}")?;
    }
    let flags = core.flags().bits();
    let clocks = core.clocks();
    writeln!(out, "\nflags {flags} clocks {clocks}")?;
    for address in (0..4 * DATA_WORDS as u32).step_by(4) {
        let word = memory.read(address).unwrap_or(0);
        if word != 0 {
            writeln!(out, "data {address:08x} {word:08x}")?;
        }
    }
    Ok(())
}

fn print_image<W: Write>(heap: Global, out: &mut W, image: &Image) -> anyhow::Result<()> {
    with_memories(image, |store, memory| {
        let mut core = Core::new();
        print_listing(out, &mut core, store, memory, LIMIT)?;
        print_state(out, &core, memory)
    })?;
    let events = stepped(heap, image, LIMIT)?;
    print_events(heap, out, events.as_slice())
}

fn main(rt: HostRuntime) -> anyhow::Result<()> {
    let mut bytes = Vec::new(rt.alloc());
    rt.stdin().take(MOST_BYTES).read_to_end(&mut bytes)?;
    let mut out = BufWriter::new(rt.alloc(), rt.stdout())?;
    let mut rest = bytes.as_slice();
    for number in 0..MOST_IMAGES {
        let Some((image, behind)) = first_image(rest) else {
            break;
        };
        writeln!(out, "vector {number}")?;
        show_image(rt.alloc(), image, &mut out, |out, image| {
            print_image(rt.alloc(), out, image)
        })?;
        rest = behind;
    }
    Ok(out.flush()?)
}
