// An event: what one instruction of a routine came to.
ghost use Rattle.std.specs.Prelude.{◌≡◌};
ghost use Rattle.stepper.specs.Events.{stop_number, stop_fault, kind_number, cause_number, fault_of};
ghost use Rattle.stepper.specs.EventWords.{instruction_of};

use isa::decode::decode;
use isa::flags::Flags;
use isa::instruction::Instruction;
use isa::register::Register;
use memory::fault::Fault;

/// Why a routine stops.
#[derive(Clone, Copy, PartialEq, Eq, Debug)]
pub enum Stop {
    /// No word can be read at the next address.
    Fetch(Fault),
    /// The word there is no instruction of the subset.
    Outside,
    /// A load or store cannot be made.
    Access(Fault),
}

/// How an instruction ended.
#[derive(Clone, Copy, PartialEq, Eq, Debug)]
pub enum Kind {
    /// Its condition held, and all its effects are made.
    Done,
    /// Its condition did not hold.
    Skipped,
    /// It could not be done, and the routine goes no further.
    Stopped(Stop),
}

/// A register and the value that it was given. Register 15 is the next address.
#[derive(Clone, Copy, PartialEq, Eq, Debug)]
pub struct RegisterWrite {
    pub register: Register,
    pub value: u32,
}

/// A word that was put into the data memory.
#[derive(Clone, Copy, PartialEq, Eq, Debug)]
pub struct MemoryWrite {
    pub address: u32,
    pub value: u32,
}

/// One instruction and what it did. The word is 0 if none could be read.
// No `Option` for the word: a trace shows one for each event, and the kind tells whether it was read.
#[derive(Clone, Copy, PartialEq, Eq, Debug)]
pub struct Event {
    pub address: u32,
    pub word: u32,
    pub kind: Kind,
    /// The flags after the instruction.
    pub flags: Flags,
    /// The register that it wrote, if it wrote one.
    pub register: Option<RegisterWrite>,
    /// The word that it stored, if it stored one.
    pub store: Option<MemoryWrite>,
}

impl Stop {
    /// The number by which users know the cause: 20, 21 or 22.
    pub fn number(self) -> u8
        ensures { result ≡ stop_number self }
    {
        // A match: variants that carry a value have no number of their own.
        match self {
            Stop::Fetch(_) => 20,
            Stop::Outside => 21,
            Stop::Access(_) => 22,
        }
    }

    /// The memory's fault, if one made the stop.
    pub fn fault(self) -> Option<Fault>
        ensures { result ≡ stop_fault self }
    {
        match self {
            Stop::Fetch(fault) | Stop::Access(fault) => Some(fault),
            Stop::Outside => None,
        }
    }
}

impl Kind {
    /// The number by which users know the kind: 0 done, 1 skipped, 2 a stop.
    pub fn number(self) -> u8
        ensures { result ≡ kind_number self }
    {
        // A match, as in `Stop::number`: a variant carries a value.
        match self {
            Kind::Done => 0,
            Kind::Skipped => 1,
            Kind::Stopped(_) => 2,
        }
    }
}

impl Event {
    /// The number of the stop's cause, and 0 for an event that is no stop.
    pub fn cause(&self) -> u8
        ensures { result ≡ cause_number self.now.kind }
    {
        match self.kind {
            Kind::Stopped(stop) => stop.number(),
            Kind::Done | Kind::Skipped => 0,
        }
    }

    /// The instruction of the event, if a word was read and it is one.
    pub fn instruction(&self) -> Option<Instruction>
        ensures { result ≡ instruction_of self.now }
    {
        match self.kind {
            Kind::Stopped(Stop::Fetch(_)) => None,
            _ => decode(self.word),
        }
    }

    /// The memory's fault, if the event is a stop that one made.
    pub fn fault(&self) -> Option<Fault>
        ensures { result ≡ fault_of self.now.kind }
    {
        match self.kind {
            Kind::Stopped(stop) => stop.fault(),
            Kind::Done | Kind::Skipped => None,
        }
    }
}
