// One clock: the stages in their order, each looking at the slots as they stood before.
ghost use Rattle.std.specs.Prelude.{◌≡◌, ◌+◌, ◌-◌, ◌^◌, ◌<◌};
ghost use Rattle.stepper.specs.Memories.{setting_of};
ghost use Rattle.memory.specs.Keeping.{OnlyWordsChange};
ghost use Rattle.pipeline.specs.Writeback.{handed_out};
ghost use Rattle.pipeline.specs.Clock.{blank, stamped, machine, retired, signals_of, moved, clocked};

use crate::decode_stage::{held_in, pass, stalls, to_execute};
use crate::execute_stage::{Ahead, execute_stage, memory_write};
use crate::fetch_stage::{Course, is_pending, value_for_15};
use crate::memory_stage::memory_stage;
use crate::signals::Signals;
use crate::slots::WritebackSlot;
use crate::state::{Core, Slots};
use crate::writeback_stage::{event_of, holds_stop, register_of};
use isa::flags::Flags;
use memory::store::{Memory, Store};
use stepper::event::{Event, Kind};

/// An event as the core hands it out: with the number of the clock that does.
#[derive(Clone, Copy, PartialEq, Eq, Debug)]
pub struct Handed {
    pub event: Event,
    pub clock: u32,
}

impl Handed {
    /// What to fill a list with before a run writes into it. No clock has the number 0.
    pub fn blank() -> Handed
        ensures { result ≡ blank }
    {
        Handed {
            event: Event {
                address: 0,
                word: 0,
                kind: Kind::Skipped,
                flags: Flags::default(),
                register: None,
                store: None,
            },
            clock: 0,
        }
    }
}

/// What a clock answers.
#[derive(Clone, Copy, PartialEq, Eq, Debug)]
pub struct Tick {
    pub handed: Option<Handed>,
    pub signals: Signals,
}

impl Core {
    // Writeback: the register is written, and the clock counts.
    fn retire(&mut self) -> Option<Handed>
        requires { self.old.clocks < 2 ^ 32 - 1 }
        ensures handed { result ≡ stamped (self.old.clocks + 1) (handed_out self.old.slots.writeback) }
        ensures after { self.new ≡ retired self.old }
    {
        self.registers.write(register_of(self.slots.writeback));
        self.clocks += 1;
        let clock = self.clocks;
        event_of(self.slots.writeback).map(|event| Handed { event, clock })
    }

    // Execute, Decode and Fetch, in a clock in which no stop is passed on.
    fn advance<S: Store>(&mut self, store: &S, writeback: Option<WritebackSlot>) -> Signals
        ensures signals { result ≡ signals_of self.old }
        ensures after { self.new ≡ moved (S.Store.word_at store.now) (S.Store.tag_at store.now) self.old writeback }
    {
        let ahead = Ahead {
            memory: memory_write(self.slots.memory),
            writeback: register_of(self.slots.writeback),
        };
        let executed = execute_stage(ahead, self.flags, self.slots.execute);
        let held = held_in(self.slots.decode);
        let course = Course {
            taken: executed.taken,
            back: value_for_15(ahead.writeback),
            stall: stalls(self.slots.execute, held),
            pending: is_pending(held, self.slots.execute, ahead.memory),
        };
        let pass = pass(&self.registers, self.slots.decode, held);
        let execute = to_execute(course.taken, course.stall, pass).of(self.slots.execute);
        let decode = course.to_decode(store, self.fetch).of(self.slots.decode);
        self.flags = executed.flags;
        self.fetch = course.onward(self.fetch);
        self.slots = Slots {
            decode,
            execute,
            memory: executed.slot,
            writeback,
        };
        Signals {
            stall: course.stall,
            write_pending: course.pending,
            branch_taken: course.taken.is_some(),
            pc_written: course.back.is_some(),
            first: executed.first,
            second: executed.second,
        }
    }

    /// One cycle by the stage rules.
    pub(crate) fn tick<S: Store, M: Memory>(&mut self, store: &S, memory: &mut M) -> Tick
        requires { self.old.clocks < 2 ^ 32 - 1 }
        ensures clock { record { machine = machine self.new (M.Store.word_at memory.new); handed = result.handed; signals = result.signals } ≡ clocked (setting_of S.Store M.Store M.Memory.own store.now memory.old) (machine self.old (M.Store.word_at memory.old)) }
        ensures rest { OnlyWordsChange M.Store M.Memory.own memory.old memory.new }
    {
        let handed = self.retire();
        if holds_stop(self.slots.writeback) {
            self.slots = Slots::default();
            self.stopped = true;
            let signals = Signals::default();
            return Tick { handed, signals };
        }
        let writeback = memory_stage(self.slots.memory, memory);
        if holds_stop(writeback) {
            self.slots = Slots {
                writeback,
                ..Slots::default()
            };
            let signals = Signals::default();
            return Tick { handed, signals };
        }
        let signals = self.advance(store, writeback);
        Tick { handed, signals }
    }
}
