// Memory: makes the access of a done load or store, and finishes the event.
ghost use Rattle.std.specs.Prelude.{◌≡◌};
ghost use Rattle.memory.specs.Keeping.{OnlyWordsChange};
ghost use Rattle.pipeline.specs.MemoryStage.{completed, words_of, to_writeback, words_left};

use crate::slots::{MemorySlot, Pending, WritebackSlot};
use memory::store::{Memory, Store};
use stepper::access::{Effect, access};
use stepper::event::{Event, Kind, Stop};

// The kind and the effect of what is pending, or the stop that it comes to.
fn complete<M: Memory>(pending: Pending, memory: &mut M) -> Result<(Kind, Effect), Stop>
    ensures effect { result ≡ completed (M.Store.word_at memory.old) (M.Store.tag_at memory.old) (M.Memory.writable_at memory.old) pending }
    ensures words { M.Store.word_at memory.new ≡ words_of (M.Store.word_at memory.old) (M.Store.tag_at memory.old) (M.Memory.writable_at memory.old) pending }
    ensures rest { OnlyWordsChange M.Store M.Memory.own memory.old memory.new }
{
    match pending {
        Pending::Done(work) => Ok((Kind::Done, access(work, memory)?)),
        Pending::Skipped => Ok((Kind::Skipped, Effect::default())),
        Pending::Stopped(stop) => Err(stop),
    }
}

/// Finishes the instruction in the slot, if there is one.
pub fn memory_stage<M: Memory>(slot: Option<MemorySlot>, memory: &mut M) -> Option<WritebackSlot>
    ensures slot { result ≡ to_writeback (M.Store.word_at memory.old) (M.Store.tag_at memory.old) (M.Memory.writable_at memory.old) slot }
    ensures words { M.Store.word_at memory.new ≡ words_left (M.Store.word_at memory.old) (M.Store.tag_at memory.old) (M.Memory.writable_at memory.old) slot }
    ensures rest { OnlyWordsChange M.Store M.Memory.own memory.old memory.new }
{
    let content = slot?;
    let stopped = |stop| (Kind::Stopped(stop), Effect::default());
    let (kind, effect) = complete(content.pending, memory).unwrap_or_else(stopped);
    let event = Event {
        address: content.address,
        word: content.word,
        kind,
        flags: content.flags,
        register: effect.register,
        store: effect.store,
    };
    Some(WritebackSlot { event })
}
