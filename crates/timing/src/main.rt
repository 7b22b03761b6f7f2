// Prints the timing sheet of the image on standard input: for each event the clock in which the core handed it out and
// the clock that the law gives from the stepper's events, and in the end what cost clocks; or why the image is refused.
#![tactic(auto)]

use console::{show_input, stepped, with_memories};
use image::Image;
use law::due::{Due, Lost, due_clocks};
use lines::{instruction_column, kind_column};
use pipeline::clock::Handed;
use pipeline::state::Core;
use refinement::perform::{Call, Performance, perform};
use std::alloc::Global;
use std::io::Write;
use stepper::event::Kind;

// 10,000 clocks. A run writes no more events than it makes clocks, so no list is full before its budget is spent.
const CALLS: [Call; 3] = [
    Call::Run {
        budget: 4096,
        places: 4096,
    },
    Call::Run {
        budget: 4096,
        places: 4096,
    },
    Call::Run {
        budget: 1808,
        places: 1808,
    },
];

fn print_row<W: Write>(heap: Global, out: &mut W, handed: Handed, due: Due) -> anyhow::Result<()> {
    let clock = handed.clock;
    let law = due.clock;
    let event = handed.event;
    let address = event.address;
    let text = instruction_column(heap, event)?;
    let instruction = text.as_str();
    let kind = kind_column(event.kind);
    write!(
        out,
        "{clock:>7}  {law:>7}  {address:08x}  {instruction:<24}  {kind}"
    )?;
    if let Kind::Stopped(stop) = event.kind {
        write!(out, " {}", stop.number())?;
    }
    Ok(out.write_all(b"\n")?)
}

fn print_lost<W: Write>(out: &mut W, lost: Lost) -> anyhow::Result<()> {
    let Lost {
        stalls,
        branches,
        done_writes,
        skipped_writes,
    } = lost;
    writeln!(out, "lost to stalls: {stalls}")?;
    writeln!(out, "lost to taken branches: {branches}")?;
    writeln!(out, "lost to done writes of register 15: {done_writes}")?;
    writeln!(
        out,
        "lost to skipped writes of register 15: {skipped_writes}"
    )?;
    Ok(())
}

// Whether the routine came to its stop.
fn has_stopped(performance: &Performance) -> bool {
    performance
        .handed
        .last()
        .is_some_and(|last| matches!(last.event.kind, Kind::Stopped(_)))
}

fn print_sheet<W: Write>(heap: Global, out: &mut W, image: &Image) -> anyhow::Result<()> {
    let mut core = Core::new();
    let performance = with_memories(image, |store, memory| {
        perform(heap, &mut core, store, memory, &CALLS)
    })?;
    // The stepper's first events, as many as the core handed out, on a memory of its own.
    let events = stepped(heap, image, u32::try_from(performance.handed.len())?)?;
    let dues = due_clocks(heap, events.as_slice())?;
    writeln!(
        out,
        "  clock      law  address   instruction               kind"
    )?;
    for (handed, due) in performance.handed.iter().zip(dues.iter()) {
        print_row(heap, out, *handed, *due)?;
    }
    if let Some(due) = dues.last() {
        print_lost(out, due.lost)?;
    }
    if !has_stopped(&performance) {
        let clocks = core.clocks();
        writeln!(out, "not stopped after {clocks} clocks")?;
    }
    Ok(())
}

fn main(rt: HostRuntime) -> anyhow::Result<()> {
    show_input(&rt, |out, image| print_sheet(rt.alloc(), out, image))
}
