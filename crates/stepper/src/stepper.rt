// The stepper and its step.
ghost use Rattle.std.specs.Prelude.{◌≡◌, ℕ, Bool, false, replicate, None, MatchResult};
ghost use Rattle.memory.specs.Meaning.{Words};
ghost use Rattle.isa.specs.Decoding.{decoded};
ghost use Rattle.memory.specs.Keeping.{OnlyWordsChange};
ghost use Rattle.stepper.specs.Registers.{cell_of};
ghost use Rattle.stepper.specs.Memories.{setting_of};
ghost use Rattle.stepper.specs.Run.{Stepped};
ghost use Rattle.stepper.specs.declared.event.Stop.TheVariants.{Access};
ghost use Rattle.stepper.specs.Step.{Attempted, setting, world, understanding, start, stop_event, marked, skip_event, passed, done_event, moved, next_of, stopped_number};

use super::access::{Effect, access};
use super::event::{Event, Kind, RegisterWrite, Stop};
use super::execute::{Work, execute};
use super::registers::{Registers, UnknownRegister};
use isa::decode::decode;
use isa::flags::Flags;
use memory::fault::Fault;
use memory::store::{Memory, Store};

/// A routine in progress: its registers and flags, the address of the next instruction, and whether it has stopped.
#[derive(Clone, Copy, PartialEq, Eq, Debug)]
pub struct Stepper {
    registers: Registers,
    flags: Flags,
    next: u32,
    stopped: bool,
}

/// The stepper has stopped and takes no further step.
#[derive(Clone, Copy, PartialEq, Eq, Debug)]
pub struct HasStopped;

impl HasStopped {
    /// The number by which users know the refusal: 6.
    pub fn number(self) -> u8
        ensures { result ≡ stopped_number }
    {
        6
    }
}

/// A fault that `?` passes on in the middle of an instruction is one of its access.
impl From<Fault> for Stop {
    ghost from_gives = { λ fault r. r ≡ Access fault };

    fn from(fault: Fault) -> Stop {
        Stop::Access(fault)
    }
}

impl Stepper {
    /// At the start of a routine: registers, flags and next address all 0.
    pub fn new() -> Stepper
        ensures { result ≡ start }
    {
        Stepper {
            registers: Registers::new(),
            flags: Flags::default(),
            next: 0,
            stopped: false,
        }
    }

    /// What stands in register 0 to 14; a higher number is refused.
    pub fn register(&self, number: u8) -> Result<u32, UnknownRegister>
        ensures { result ≡ cell_of self.now.registers.values number }
    {
        self.registers.cell(number)
    }

    /// The flags after the last instruction that was done.
    pub fn flags(&self) -> Flags
        ensures { result ≡ self.now.flags }
    {
        self.flags
    }

    /// The address of the next instruction.
    pub fn next_address(&self) -> u32
        ensures { result ≡ self.now.next }
    {
        self.next
    }

    /// Whether the routine has stopped, so that no further step is taken.
    pub fn has_stopped(&self) -> bool
        ensures { result ≡ self.now.stopped }
    {
        self.stopped
    }

    // The event of the instruction at the next address, if it changes nothing.
    fn event(&self, word: u32, kind: Kind) -> Event
        ensures { result ≡ record { address = self.now.next; word = word; kind = kind; flags = self.now.flags; register = None; store = None } }
    {
        Event {
            address: self.next,
            word,
            kind,
            flags: self.flags,
            register: None,
            store: None,
        }
    }

    // A stop changes nothing but the mark.
    fn stop(&mut self, word: u32, why: Stop) -> Event
        ensures event { result ≡ stop_event self.old word why }
        ensures after { self.new ≡ marked self.old }
    {
        self.stopped = true;
        self.event(word, Kind::Stopped(why))
    }

    // Three methods ask that the routine goes on. Callers hold a stepper in both states, so each `step` would make a type for
    // that state and undo it.

    // A skipped instruction is only passed by.
    fn skip(&mut self, word: u32) -> Event
        requires { self.old.stopped ≡ false }
        ensures event { result ≡ skip_event self.old word }
        ensures after { self.new ≡ passed self.old }
    {
        let event = self.event(word, Kind::Skipped);
        self.next = self.next.wrapping_add(4);
        event
    }

    // A done instruction, whose access is made.
    fn finish(&mut self, word: u32, work: Work, flags: Flags, effect: Effect) -> Event
        requires { self.old.stopped ≡ false }
        ensures event { result ≡ done_event self.old word flags effect }
        ensures after { self.new ≡ moved self.old work flags effect }
    {
        let Effect { register, store } = effect;
        let event = Event {
            flags,
            register,
            store,
            ..self.event(word, Kind::Done)
        };
        self.registers.write(register);
        self.flags = flags;
        self.next = next_address(self.next, work, register);
        event
    }
}

impl Stepper {
    // The instruction of a word at the next address: passed by, done, or a stop that leaves everything as it was.
    fn perform<M: Memory>(&mut self, word: u32, memory: &mut M) -> Result<Event, Stop>
        requires { self.old.stopped ≡ false }
        ensures turn { Attempted (world self.old (M.Store.word_at memory.old)) word (understanding (M.Store.tag_at memory.old) (M.Memory.writable_at memory.old) (world self.old (M.Store.word_at memory.old)) word (decoded word)) (world self.new (M.Store.word_at memory.new)) result }
        ensures rest { OnlyWordsChange M.Store M.Memory.own memory.old memory.new }
    {
        let instruction = decode(word).ok_or(Stop::Outside)?;
        if !instruction.condition.holds(self.flags) {
            return Ok(self.skip(word));
        }
        let first = self.registers.read(instruction.first_source(), self.next);
        let second = self.registers.read(instruction.second_source(), self.next);
        let (work, flags) = execute(instruction.action, first, second, self.flags);
        let effect = access(work, memory)?;
        Ok(self.finish(word, work, flags, effect))
    }
}

impl Stepper {
    /// Takes one instruction: the event that it comes to, or a refusal if the routine has stopped.
    /// A refused step changes nothing.
    pub fn step<S: Store, M: Memory>(
        &mut self,
        store: &S,
        memory: &mut M,
    ) -> Result<Event, HasStopped>
        ensures step { Stepped (setting_of S.Store M.Store M.Memory.own store.now memory.old) (world self.old (M.Store.word_at memory.old)) result (world self.new (M.Store.word_at memory.new)) }
        ensures rest { OnlyWordsChange M.Store M.Memory.own memory.old memory.new }
    {
        if self.stopped {
            return Err(HasStopped);
        }
        // No `?`: a stop is what the step answers, and no refusal of it.
        let word = match store.read(self.next) {
            Ok(word) => word,
            Err(fault) => return Ok(self.stop(0, Stop::Fetch(fault))),
        };
        match self.perform(word, memory) {
            Ok(event) => Ok(event),
            Err(why) => Ok(self.stop(word, why)),
        }
    }
}

// Where the routine goes on after a done instruction.
fn next_address(address: u32, work: Work, register: Option<RegisterWrite>) -> u32
    ensures { result ≡ next_of address work register }
{
    if let Work::Branch { target } = work {
        return target;
    }
    match register {
        Some(write) if write.register.number() == 15 => write.value,
        _ => address.wrapping_add(4),
    }
}
