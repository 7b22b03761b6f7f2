// What a core shows, in forms that can be compared.
use pipeline::calls::{Ran, Refusal};
use pipeline::clock::{Handed, Tick};
use pipeline::state::Core;
use stepper::registers::UnknownRegister;

/// What the calls that change nothing answer: two registers, the flags, the clocks and the slots.
#[derive(Clone, Copy, PartialEq, Debug)]
pub struct Standing {
    pub r0: Result<u32, UnknownRegister>,
    pub r1: Result<u32, UnknownRegister>,
    pub flags: u8,
    pub clocks: u32,
    pub slots: [Option<u32>; 4],
}

pub fn state(core: &Core) -> Standing {
    let slots = core.slots();
    Standing {
        r0: core.register(0),
        r1: core.register(1),
        flags: core.flags().bits(),
        clocks: core.clocks(),
        slots: [slots.decode, slots.execute, slots.memory, slots.writeback],
    }
}

/// The address and the clock of an event.
pub fn mark(handed: Handed) -> (u32, u32) {
    (handed.event.address, handed.clock)
}

/// Clocks made, events written, and the number of the reason.
#[derive(Clone, Copy, PartialEq, Debug)]
pub struct Outcome {
    pub clocks: u32,
    pub events: usize,
    pub reason: u8,
}

/// What a run came to, or the number of its refusal.
// Numbers, and not the enums' variants: they are what users are told.
pub fn ran(answer: Result<Ran, Refusal>) -> Result<Outcome, u8> {
    answer
        .map(|ran| Outcome {
            clocks: ran.clocks,
            events: ran.events,
            reason: ran.reason.number(),
        })
        .map_err(Refusal::number)
}

/// The mark of the event that a clock handed out, if any; or the number of the refusal.
pub fn handed(answer: Result<Tick, Refusal>) -> Result<Option<(u32, u32)>, u8> {
    answer
        .map(|tick| tick.handed.map(mark))
        .map_err(Refusal::number)
}
