// Prints what the routine of the image on standard input does, an event to a line, or why the image is refused.
#![tactic(auto)]

use console::{print_events, show_input, stepped};

// The most steps that are taken.
const MOST_STEPS: u32 = 10_000;

fn main(rt: HostRuntime) -> anyhow::Result<()> {
    show_input(&rt, |out, image| {
        let events = stepped(rt.alloc(), image, MOST_STEPS)?;
        print_events(rt.alloc(), out, events.as_slice())
    })
}
