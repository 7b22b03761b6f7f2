// Tables of events and clocks.
ghost use Rattle.std.specs.Prelude.{◌≡◌, OnOk};
ghost use Rattle.std.specs.Io.KnownBytes.{Appends};
ghost use Rattle.memory.specs.Keeping.{OnlyWordsChange};
ghost use Rattle.stepper.specs.Memories.{setting_of};
ghost use Rattle.pipeline.specs.Clock.{machine};
ghost use Rattle.console.specs.Listing.{after_calls, listing};

use lines::Line;
use memory::store::{Memory, Store};
use pipeline::state::Core;
use report::clocking::clock_line;
use std::alloc::Global;
use std::io::Write;
use stepper::event::Event;

/// Writes the lines of events, counted from 1. No contract says what a line prints, so none says what is written.
pub fn print_events<W: Write>(heap: Global, out: &mut W, events: &[Event]) -> anyhow::Result<()> {
    for (number, event) in (1..=u32::MAX).zip(events) {
        let line = Line::new(heap, number, *event)?;
        writeln!(out, "{line}")?;
    }
    Ok(())
}

/// Writes the lines of a core's next clocks, as many as the limit allows and the core makes.
pub fn print_listing<W: Write, S: Store, M: Memory>(
    out: &mut W,
    core: &mut Core,
    store: &S,
    memory: &mut M,
    limit: u32,
) -> anyhow::Result<()>
    ensures lines { OnOk result (Appends (W.contents out.old) (W.contents out.new) (listing (setting_of S.Store M.Store M.Memory.own store.now memory.old) (machine core.old (M.Store.word_at memory.old)) limit)) }
    ensures clocks { OnOk result (machine core.new (M.Store.word_at memory.new) ≡ after_calls (setting_of S.Store M.Store M.Memory.own store.now memory.old) (machine core.old (M.Store.word_at memory.old)) limit) }
    ensures rest { OnlyWordsChange M.Store M.Memory.own memory.old memory.new }
{
    let mut buffer = [0u8; 80];
    for clock in 0..limit {
        let Ok(listed) = clock_line(core, store, memory, &mut buffer) else {
            break;
        };
        out.write_all(&buffer[..listed.length])?;
    }
    Ok(())
}
