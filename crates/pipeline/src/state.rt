// The core: registers, flags, fetch address, four slots, and how many clocks it has made.
ghost use Rattle.std.specs.Prelude.{◌≡◌};
ghost use Rattle.pipeline.specs.Clock.{reset};

use crate::slots::{DecodeSlot, ExecuteSlot, MemorySlot, WritebackSlot};
use isa::flags::Flags;
use stepper::registers::Registers;

/// The four slots, by default all empty.
#[derive(Clone, Copy, PartialEq, Eq, Default, Debug)]
pub struct Slots {
    pub decode: Option<DecodeSlot>,
    pub execute: Option<ExecuteSlot>,
    pub memory: Option<MemorySlot>,
    pub writeback: Option<WritebackSlot>,
}

/// The core between two clocks.
#[derive(Clone, Copy, PartialEq, Eq, Debug)]
pub struct Core {
    pub(crate) registers: Registers,
    pub(crate) flags: Flags,
    pub(crate) fetch: u32,
    pub(crate) slots: Slots,
    /// The clocks made since reset.
    pub(crate) clocks: u32,
    pub(crate) stopped: bool,
}

impl Core {
    /// A core after reset: everything empty and 0.
    pub fn new() -> Core
        ensures { result ≡ reset }
    {
        Core {
            registers: Registers::new(),
            flags: Flags::default(),
            fetch: 0,
            slots: Slots::default(),
            clocks: 0,
            stopped: false,
        }
    }
}
