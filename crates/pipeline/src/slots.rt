// What stands between two stages. A slot bears the name of the stage that takes it up in the clock to come; an
// empty one is `None`.
ghost use Rattle.std.specs.Prelude.{◌≡◌};
ghost use Rattle.pipeline.specs.Slots.{changed};

use isa::flags::Flags;
use isa::instruction::Instruction;
use memory::fault::Fault;
use stepper::event::{Event, Stop};
use stepper::execute::Work;

/// A fetched word: where, and what the program store answered there.
#[derive(Clone, Copy, PartialEq, Eq, Debug)]
pub struct DecodeSlot {
    pub address: u32,
    pub fetched: Result<u32, Fault>,
}

/// An instruction with what its two source registers held when it was decoded.
#[derive(Clone, Copy, PartialEq, Eq, Debug)]
pub struct Issue {
    pub instruction: Instruction,
    pub first: u32,
    pub second: u32,
}

/// A decoded word, or the stop that it came to. The word is 0 if none could be read.
#[derive(Clone, Copy, PartialEq, Eq, Debug)]
pub struct ExecuteSlot {
    pub address: u32,
    pub word: u32,
    pub issue: Result<Issue, Stop>,
}

/// What is left of an instruction behind Execute.
#[derive(Clone, Copy, PartialEq, Eq, Debug)]
pub enum Pending {
    Done(Work),
    Skipped,
    Stopped(Stop),
}

/// An executed instruction, with the flags after it.
#[derive(Clone, Copy, PartialEq, Eq, Debug)]
pub struct MemorySlot {
    pub address: u32,
    pub word: u32,
    pub flags: Flags,
    pub pending: Pending,
}

/// A finished instruction, whose event is still to be handed out.
#[derive(Clone, Copy, PartialEq, Eq, Debug)]
pub struct WritebackSlot {
    pub event: Event,
}

/// What a clock does to a slot, of whatever kind.
// Three outcomes of one rank: an `Option` of an `Option` would not say which `None` keeps and which empties.
#[derive(Clone, Copy, PartialEq, Eq, Debug)]
pub enum Change<T> {
    Keep,
    Empty,
    Fill(T),
}

impl<T: Copy> Change<T> {
    /// The slot after the change.
    pub fn of(self, slot: Option<T>) -> Option<T>
        ensures { result ≡ changed self slot }
    {
        match self {
            Change::Keep => slot,
            Change::Empty => None,
            Change::Fill(content) => Some(content),
        }
    }
}
