//! One clock of a core together with its line of the listing.

ghost use Rattle.memory.specs.Keeping.{OnlyWordsChange};
ghost use Rattle.stepper.specs.Memories.{setting_of};
ghost use Rattle.pipeline.specs.Clock.{machine};
ghost use Rattle.pipeline.specs.Calls.{Clocks};
ghost use Rattle.report.specs.ListedClock.{tick_in, LineMade};

use super::line::line;
use memory::store::{Memory, Store};
use pipeline::calls::Refusal;
use pipeline::clock::Tick;
use pipeline::state::Core;

/// What a clock answered, and the length of its line.
#[derive(Clone, Copy, PartialEq, Eq, Debug)]
pub struct Listed {
    pub length: usize,
    pub tick: Tick,
}

/// One clock, and its line in the buffer. A refused clock changes nothing, the buffer neither.
pub fn clock_line<S: Store, M: Memory>(
    core: &mut Core,
    store: &S,
    memory: &mut M,
    buffer: &mut [u8; 80],
) -> Result<Listed, Refusal>
    ensures clock { Clocks (setting_of S.Store M.Store M.Memory.own store.now memory.old) (machine core.old (M.Store.word_at memory.old)) (tick_in result) (machine core.new (M.Store.word_at memory.new)) }
    ensures line { LineMade result core.new buffer.old buffer.new }
    ensures rest { OnlyWordsChange M.Store M.Memory.own memory.old memory.new }
{
    let tick = core.clock(store, memory)?;
    let length = line(core.clocks(), core.slots(), tick.handed, buffer);
    Ok(Listed { length, tick })
}
