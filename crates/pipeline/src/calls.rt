// The calls that users make on a core.
ghost use Rattle.std.specs.Prelude.{◌≡◌, ◌+◌, ◌<◌, length, Some, None};
ghost use Rattle.std.specs.Option.{option_to_list};
ghost use Rattle.std.specs.Result.{result_err};
ghost use Rattle.stepper.specs.Registers.{cell_of};
ghost use Rattle.stepper.specs.Memories.{setting_of};
ghost use Rattle.memory.specs.Keeping.{OnlyWordsChange};
ghost use Rattle.pipeline.specs.Clock.{machine, reset};
ghost use Rattle.pipeline.specs.Calls.{refusal_number, reason_number, clock_refusal, run_refusal, addresses_in, stop_in, placed, end_of, Clocks, RunAnswers};

use crate::clock::{Handed, Tick};
use crate::state::Core;
use isa::flags::Flags;
use memory::store::{Memory, Store};
use stepper::event::{Event, Kind};
use stepper::registers::UnknownRegister;

/// The most clocks between two resets.
pub const MOST_CLOCKS: u32 = 1_000_000_000;
/// The largest budget of a run.
pub const MOST_BUDGET: u32 = 1_000_000;
/// The longest list of a run.
pub const MOST_PLACES: usize = 4096;

/// Why a call is refused. A refused call changes nothing.
#[derive(Clone, Copy, PartialEq, Eq, Debug)]
pub enum Refusal {
    /// The core has stopped.
    HasStopped = 6,
    /// All clocks that may be made since the last reset were made.
    NoClocksLeft = 7,
    /// The budget is 0 or above 1,000,000.
    BadBudget = 8,
    /// The list has no place or more than 4,096.
    BadList = 9,
}

/// Why a run ended.
#[derive(Clone, Copy, PartialEq, Eq, Debug)]
pub enum Reason {
    /// This stop was handed out, with its cause, instruction and fault; it is the last event in the list too.
    Stop(Event),
    /// Every place of the list is written.
    ListFull,
    /// As many clocks were made as the budget allows.
    BudgetSpent,
    /// All clocks that may be made since the last reset were made.
    ClockLimit,
}

/// What a run did: how many clocks it made, how many events it wrote, and why it ended.
#[derive(Clone, Copy, PartialEq, Eq, Debug)]
pub struct Ran {
    pub clocks: u32,
    pub events: usize,
    pub reason: Reason,
}

/// The address in each slot, or none if the slot is empty.
#[derive(Clone, Copy, PartialEq, Eq, Debug)]
pub struct SlotAddresses {
    pub decode: Option<u32>,
    pub execute: Option<u32>,
    pub memory: Option<u32>,
    pub writeback: Option<u32>,
}

impl Refusal {
    /// The number by which users know the refusal: 6 to 9.
    pub fn number(self) -> u8
        ensures { result ≡ refusal_number self }
    {
        self as u8
    }
}

impl Reason {
    /// The number by which users know the reason: 1 to 4.
    pub fn number(self) -> u8
        ensures { result ≡ reason_number self }
    {
        // A match: a variant that carries a value has no number of its own.
        match self {
            Reason::Stop(_) => 1,
            Reason::ListFull => 2,
            Reason::BudgetSpent => 3,
            Reason::ClockLimit => 4,
        }
    }
}

// Whether the next clock may be made.
fn check_clock(core: &Core) -> Result<(), Refusal>
    ensures { result_err result ≡ clock_refusal core.now }
{
    if core.stopped {
        Err(Refusal::HasStopped)
    } else if core.clocks >= MOST_CLOCKS {
        Err(Refusal::NoClocksLeft)
    } else {
        Ok(())
    }
}

// Whether a run may begin.
fn check_run(core: &Core, budget: u32, places: usize) -> Result<(), Refusal>
    ensures { result_err result ≡ run_refusal budget places core.now }
{
    if budget == 0 || budget > MOST_BUDGET {
        return Err(Refusal::BadBudget);
    }
    if places == 0 || places > MOST_PLACES {
        return Err(Refusal::BadList);
    }
    check_clock(core)
}

// The stop that a clock handed out, if it did.
fn stop_in(handed: Option<Handed>) -> Option<Event>
    ensures { result ≡ stop_in handed }
{
    handed
        .map(|handed| handed.event)
        .filter(|event| matches!(event.kind, Kind::Stopped(_)))
}

// Why a run ends after a clock, if it does.
fn end_of(
    core: &Core,
    stop: Option<Event>,
    places: usize,
    budget: u32,
    written: usize,
    made: u32,
) -> Option<Reason>
    ensures { result ≡ end_of places budget written made core.now stop }
{
    if let Some(event) = stop {
        return Some(Reason::Stop(event));
    }
    if written == places {
        Some(Reason::ListFull)
    } else if made == budget {
        Some(Reason::BudgetSpent)
    } else if core.clocks >= MOST_CLOCKS {
        Some(Reason::ClockLimit)
    } else {
        None
    }
}

impl Core {
    /// Empties everything and sets it to 0, the number of clocks too.
    pub fn reset(&mut self)
        ensures { self.new ≡ reset }
    {
        *self = Core::new();
    }

    /// What stands in register 0 to 14; a higher number is refused.
    // As the stepper answers it, and the flags below: no code takes either of the two, so a trait would have no user.
    pub fn register(&self, number: u8) -> Result<u32, UnknownRegister>
        ensures { result ≡ cell_of self.now.registers.values number }
    {
        self.registers.cell(number)
    }

    /// The flags as they stand.
    pub fn flags(&self) -> Flags
        ensures { result ≡ self.now.flags }
    {
        self.flags
    }

    /// The clocks made since reset.
    pub fn clocks(&self) -> u32
        ensures { result ≡ self.now.clocks }
    {
        self.clocks
    }

    /// The address in each slot.
    pub fn slots(&self) -> SlotAddresses
        ensures { result ≡ addresses_in self.now.slots }
    {
        SlotAddresses {
            decode: self.slots.decode.map(|slot| slot.address),
            execute: self.slots.execute.map(|slot| slot.address),
            memory: self.slots.memory.map(|slot| slot.address),
            writeback: self.slots.writeback.map(|slot| slot.event.address),
        }
    }

    /// One cycle: the event that it hands out, if any, and its signals. Refused on a stopped core, and when all clocks
    /// were made.
    pub fn clock<S: Store, M: Memory>(&mut self, store: &S, memory: &mut M) -> Result<Tick, Refusal>
        ensures clock { Clocks (setting_of S.Store M.Store M.Memory.own store.now memory.old) (machine self.old (M.Store.word_at memory.old)) result (machine self.new (M.Store.word_at memory.new)) }
        ensures rest { OnlyWordsChange M.Store M.Memory.own memory.old memory.new }
    {
        check_clock(self)?;
        Ok(self.tick(store, memory))
    }

    /// Clocks up to a budget, and writes the events that they hand out into the list, from its first place on.
    /// Places past the events written keep what they hold.
    pub fn run<S: Store, M: Memory>(
        &mut self,
        store: &S,
        memory: &mut M,
        budget: u32,
        list: &mut [Handed],
    ) -> Result<Ran, Refusal>
        ensures run { RunAnswers (setting_of S.Store M.Store M.Memory.own store.now memory.old) (machine self.old (M.Store.word_at memory.old)) budget list.old result (machine self.new (M.Store.word_at memory.new)) list.new }
        ensures rest { OnlyWordsChange M.Store M.Memory.own memory.old memory.new }
    {
        check_run(self, budget, list.len())?;
        let mut written = 0;
        for made in 0..budget {
            let tick = self.tick(store, memory);
            written = place(list, written, tick.handed);
            let stop = stop_in(tick.handed);
            if let Some(reason) = end_of(self, stop, list.len(), budget, written, made + 1) {
                return Ok(Ran {
                    clocks: made + 1,
                    events: written,
                    reason,
                });
            }
        }
        // The clock that spends the budget ends the run.
        unreachable()
    }
}

// Writes what a clock handed out, if anything, at a place of the list, and answers the next place.
fn place(list: &mut [Handed], written: usize, handed: Option<Handed>) -> usize
    requires { written < length list.old }
    ensures next { result ≡ written + length (option_to_list handed) }
    ensures list { list.new ≡ placed list.old written handed }
{
    match handed {
        Some(handed) => {
            list[written] = handed;
            written + 1
        }
        None => written,
    }
}
