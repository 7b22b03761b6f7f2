// Prints the listing of the image on standard input, a line a clock, or why the image is refused.
#![tactic(auto)]

use console::{print_listing, show_input, with_memories};
use pipeline::state::Core;

// The most clocks that are made.
const MOST_CLOCKS: u32 = 10_000;

fn main(rt: HostRuntime) -> anyhow::Result<()> {
    show_input(&rt, |out, image| {
        with_memories(image, |store, memory| {
            print_listing(out, &mut Core::new(), store, memory, MOST_CLOCKS)
        })
    })
}
