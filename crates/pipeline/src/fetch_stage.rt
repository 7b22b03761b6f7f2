// Fetch: which word comes next, if any.
ghost use Rattle.std.specs.Prelude.{◌≡◌};
ghost use Rattle.pipeline.specs.FetchStage.{in_decode, in_execute, is_write_15, value_for_15, is_pending, onward, slot_at, to_decode};

use crate::slots::{Change, DecodeSlot, ExecuteSlot};
use isa::instruction::Instruction;
use memory::store::Store;
use stepper::event::{RegisterWrite, Stop};

/// What decides where Fetch goes on.
#[derive(Clone, Copy, PartialEq, Eq, Debug)]
pub struct Course {
    /// The target of a taken branch.
    pub taken: Option<u32>,
    /// The value of register 15 that is written back.
    pub back: Option<u32>,
    pub stall: bool,
    /// A write of register 15 is under way.
    pub pending: bool,
}

fn in_decode(held: Option<Result<Instruction, Stop>>) -> bool
    ensures { result ≡ in_decode held }
{
    held.is_some_and(|found| found.is_ok_and(Instruction::writes_15))
}

fn in_execute(slot: Option<ExecuteSlot>) -> bool
    ensures { result ≡ in_execute slot }
{
    slot.is_some_and(|content| content
        .issue
        .is_ok_and(|issue| issue.instruction.writes_15()))
}

/// The value that a write gives to register 15, if it is to that.
pub fn value_for_15(write: Option<RegisterWrite>) -> Option<u32>
    ensures { result ≡ value_for_15 write }
{
    write
        .filter(|write| write.register.number() == 15)
        .map(|write| write.value)
}

fn is_write_15(write: Option<RegisterWrite>) -> bool
    ensures { result ≡ is_write_15 write }
{
    value_for_15(write).is_some()
}

/// Whether a write of register 15 is under way: in Decode or Execute whatever its condition, in Memory if it is done.
pub fn is_pending(
    held: Option<Result<Instruction, Stop>>,
    execute: Option<ExecuteSlot>,
    memory: Option<RegisterWrite>,
) -> bool
    ensures { result ≡ is_pending held execute memory }
{
    in_decode(held) || in_execute(execute) || is_write_15(memory)
}

impl Course {
    /// The fetch address after the clock.
    pub fn onward(self, fetch: u32) -> u32
        ensures { result ≡ onward self.taken self.back self.stall self.pending fetch }
    {
        match self.taken.or(self.back) {
            Some(address) => address,
            None if self.stall || self.pending => fetch,
            None => fetch.wrapping_add(4),
        }
    }

    /// What becomes of the Decode slot.
    pub fn to_decode<S: Store>(self, store: &S, fetch: u32) -> Change<DecodeSlot>
        ensures { result ≡ to_decode self.taken self.back self.stall self.pending (slot_at (S.Store.word_at store.now) (S.Store.tag_at store.now) fetch) }
    {
        if self.taken.is_some() || self.back.is_some() {
            return Change::Empty;
        }
        if self.stall {
            return Change::Keep;
        }
        if self.pending {
            return Change::Empty;
        }
        Change::Fill(DecodeSlot {
            address: fetch,
            fetched: store.read(fetch),
        })
    }
}
