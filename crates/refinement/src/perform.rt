// Any list of calls on a core from reset, performed one after another.
ghost use Rattle.std.specs.Prelude.{◌≡◌, length, IfOk};
ghost use Rattle.memory.specs.Keeping.{OnlyWordsChange};
ghost use Rattle.stepper.specs.Memories.{setting_of};
ghost use Rattle.pipeline.specs.Clock.{machine, reset};
ghost use Rattle.refinement.specs.Lateness.{RunsLateBeside};
ghost use Rattle.refinement.specs.Performing.{Tried, AllTried};

use isa::flags::Flags;
use memory::store::{Memory, Store};
use pipeline::calls::{Ran, Refusal, SlotAddresses};
use pipeline::clock::{Handed, Tick};
use pipeline::state::Core;
use std::alloc::{AllocError, Global};
use stepper::registers::UnknownRegister;

/// A call to be made.
// Calls are data, and no closures: the theorem is about any list of them.
#[derive(Clone, Copy, PartialEq, Eq, Debug)]
pub enum Call {
    Clock,
    /// Run with a budget, into a list of so many places.
    Run { budget: u32, places: u16 },
    /// What stands in the register of that number.
    Register(u8),
    Flags,
    Slots,
}

/// What a call answered.
#[derive(Clone, Copy, PartialEq, Eq, Debug)]
pub enum Answer {
    Clock(Result<Tick, Refusal>),
    Run(Result<Ran, Refusal>),
    Register(Result<u32, UnknownRegister>),
    Flags(Flags),
    Slots(SlotAddresses),
}

/// The answers to a list of calls, in its order, and all events that the calls handed out.
#[derive(Drop, Debug)]
pub struct Performance {
    pub answers: Vec<Answer>,
    pub handed: Vec<Handed>,
}

// Core, store, memory and list stay parameters: a struct of them would have to promise of each borrow that it is the same.

fn perform_clock<S: Store, M: Memory>(
    core: &mut Core,
    store: &S,
    memory: &mut M,
    handed: &mut Vec<Handed>,
) -> Result<Answer, AllocError>
    ensures call { Tried (setting_of S.Store M.Store M.Memory.own store.now memory.old) (machine core.old (M.Store.word_at memory.old)) Call.Clock handed.old.items handed.new.items (machine core.new (M.Store.word_at memory.new)) result }
    ensures rest { OnlyWordsChange M.Store M.Memory.own memory.old memory.new }
{
    let answer = core.clock(store, memory);
    if let Ok(tick) = answer {
        if let Some(event) = tick.handed {
            handed.push(event)?;
        }
    }
    Ok(Answer::Clock(answer))
}

// A run into a list that is there already.
fn run_into<S: Store, M: Memory>(
    core: &mut Core,
    store: &S,
    memory: &mut M,
    budget: u32,
    list: &mut [Handed],
    handed: &mut Vec<Handed>,
) -> Result<Answer, AllocError>
    ensures call { Tried (setting_of S.Store M.Store M.Memory.own store.now memory.old) (machine core.old (M.Store.word_at memory.old)) (Call.Run budget (length list.old)) handed.old.items handed.new.items (machine core.new (M.Store.word_at memory.new)) result }
    ensures rest { OnlyWordsChange M.Store M.Memory.own memory.old memory.new }
{
    let answer = core.run(store, memory, budget, list);
    if let Ok(ran) = answer {
        handed.extend_from_slice(&list[..ran.events])?;
    }
    Ok(Answer::Run(answer))
}

fn perform_run<S: Store, M: Memory>(
    heap: Global,
    core: &mut Core,
    store: &S,
    memory: &mut M,
    budget: u32,
    places: u16,
    handed: &mut Vec<Handed>,
) -> Result<Answer, AllocError>
    ensures call { Tried (setting_of S.Store M.Store M.Memory.own store.now memory.old) (machine core.old (M.Store.word_at memory.old)) (Call.Run budget places) handed.old.items handed.new.items (machine core.new (M.Store.word_at memory.new)) result }
    ensures rest { OnlyWordsChange M.Store M.Memory.own memory.old memory.new }
{
    let mut list = vec![in heap; Handed::blank(); usize::from(places)]?;
    run_into(core, store, memory, budget, list.as_mut_slice(), handed)
}

// One call, whichever it is.
fn perform_one<S: Store, M: Memory>(
    heap: Global,
    core: &mut Core,
    store: &S,
    memory: &mut M,
    call: Call,
    handed: &mut Vec<Handed>,
) -> Result<Answer, AllocError>
    ensures call { Tried (setting_of S.Store M.Store M.Memory.own store.now memory.old) (machine core.old (M.Store.word_at memory.old)) call handed.old.items handed.new.items (machine core.new (M.Store.word_at memory.new)) result }
    ensures rest { OnlyWordsChange M.Store M.Memory.own memory.old memory.new }
{
    match call {
        Call::Clock => perform_clock(core, store, memory, handed),
        Call::Run { budget, places } => {
            perform_run(heap, core, store, memory, budget, places, handed)
        }
        Call::Register(number) => Ok(Answer::Register(core.register(number))),
        Call::Flags => Ok(Answer::Flags(core.flags())),
        Call::Slots => Ok(Answer::Slots(core.slots())),
    }
}

// The calls of a list, on a core that was just reset.
fn perform_all<S: Store, M: Memory>(
    heap: Global,
    core: &mut Core,
    store: &S,
    memory: &mut M,
    calls: &[Call],
) -> Result<Performance, AllocError>
    requires { core.old ≡ reset }
    ensures late { IfOk result (λ p. RunsLateBeside (setting_of S.Store M.Store M.Memory.own store.now memory.old) (M.Store.word_at memory.old) (machine core.new (M.Store.word_at memory.new)) p.handed.items) }
    ensures calls { AllTried (setting_of S.Store M.Store M.Memory.own store.now memory.old) (machine reset (M.Store.word_at memory.old)) calls.now (machine core.new (M.Store.word_at memory.new)) result }
    ensures rest { OnlyWordsChange M.Store M.Memory.own memory.old memory.new }
{
    let mut answers = Vec::new(heap);
    let mut handed = Vec::new(heap);
    for call in calls {
        let answer = perform_one(heap, core, store, memory, *call, &mut handed)?;
        answers.push(answer)?;
    }
    Ok(Performance { answers, handed })
}

/// Resets the core and makes the calls, one after another: what each answered, and all events that were handed out.
///
/// The core then runs late beside the stepper: the events are the stepper's first ones, each in the clock that the clock
/// law gives; registers, data memory and flags are the stepper's after them. Without the memory to keep the answers the
/// rest of the calls is given up.
pub fn perform<S: Store, M: Memory>(
    heap: Global,
    core: &mut Core,
    store: &S,
    memory: &mut M,
    calls: &[Call],
) -> Result<Performance, AllocError>
    ensures late { IfOk result (λ p. RunsLateBeside (setting_of S.Store M.Store M.Memory.own store.now memory.old) (M.Store.word_at memory.old) (machine core.new (M.Store.word_at memory.new)) p.handed.items) }
    ensures calls { AllTried (setting_of S.Store M.Store M.Memory.own store.now memory.old) (machine reset (M.Store.word_at memory.old)) calls.now (machine core.new (M.Store.word_at memory.new)) result }
    ensures rest { OnlyWordsChange M.Store M.Memory.own memory.old memory.new }
{
    core.reset();
    perform_all(heap, core, store, memory, calls)
}
