// A routine from its start to its stop.
ghost use Rattle.std.specs.Prelude.{◌≡◌, ℕ, IfOk, MatchResult};
ghost use Rattle.memory.specs.Keeping.{OnlyWordsChange};
ghost use Rattle.stepper.specs.Memories.{setting_of};
ghost use Rattle.stepper.specs.Run.{Ran, GivenUp};
ghost use Rattle.stepper.specs.Alike.{BothRan};

use super::event::Event;
use super::stepper::Stepper;
use memory::store::{Memory, Store};
use std::alloc::{AllocError, Global};

/// First events of a routine, as many as the limit allows; the stop, if it comes, is the last.
/// Without the memory to keep them the routine is given up between two steps.
pub fn run<S: Store, M: Memory>(
    heap: Global,
    store: &S,
    memory: &mut M,
    limit: u32,
) -> Result<Vec<Event>, AllocError>
    ensures run { MatchResult result (λ events. Ran (setting_of S.Store M.Store M.Memory.own store.now memory.old) (M.Store.word_at memory.old) limit events.items (M.Store.word_at memory.new)) (λ _. GivenUp (setting_of S.Store M.Store M.Memory.own store.now memory.old) (M.Store.word_at memory.old) limit (M.Store.word_at memory.new)) }
    ensures rest { OnlyWordsChange M.Store M.Memory.own memory.old memory.new }
{
    let mut stepper = Stepper::new();
    let mut events = Vec::new(heap);
    for _taken in 0..limit {
        match stepper.step(store, memory) {
            Ok(event) => events.push(event)?,
            Err(_) => break,
        }
    }
    Ok(events)
}

/// Runs one routine after the other, each under the limit. Over memories of the same meaning the two have the same
/// events and leave the same data words, whatever the makes of the memories.
pub fn run_both<S: Store, M: Memory, S2: Store, M2: Memory>(
    heap: Global,
    store: &S,
    memory: &mut M,
    store2: &S2,
    memory2: &mut M2,
    limit: u32,
) -> Result<(Vec<Event>, Vec<Event>), AllocError>
    ensures both { IfOk result (λ events. BothRan (setting_of S.Store M.Store M.Memory.own store.now memory.old) (setting_of S2.Store M2.Store M2.Memory.own store2.now memory2.old) (M.Store.word_at memory.old) (M2.Store.word_at memory2.old) limit events.0.items events.1.items (M.Store.word_at memory.new) (M2.Store.word_at memory2.new)) }
    ensures rest { OnlyWordsChange M.Store M.Memory.own memory.old memory.new }
    ensures rest2 { OnlyWordsChange M2.Store M2.Memory.own memory2.old memory2.new }
{
    let first = run(heap, store, memory, limit)?;
    let second = run(heap, store2, memory2, limit)?;
    Ok((first, second))
}
