// Execute: takes its source values, judges the condition and does the arithmetic.
ghost use Rattle.std.specs.Prelude.{◌≡◌, Ok};
ghost use Rattle.pipeline.specs.ExecuteStage.{memory_write, result_of, names, code_of, taking, operand, performed, taken_by, hands_on, issued_on, executed};

use crate::signals::Forwarding;
use crate::slots::{ExecuteSlot, Issue, MemorySlot, Pending};
use isa::flags::Flags;
use isa::register::Register;
use stepper::event::RegisterWrite;
use stepper::execute::{Work, execute};

/// What Execute hands on.
#[derive(Clone, Copy, PartialEq, Eq, Debug)]
pub struct Executed {
    pub slot: Option<MemorySlot>,
    pub flags: Flags,
    /// The target of a taken branch.
    pub taken: Option<u32>,
    pub first: Forwarding,
    pub second: Forwarding,
}

/// The writes that Execute can take a value from: those of the Memory and the Writeback slot.
#[derive(Clone, Copy, PartialEq, Eq, Debug)]
pub struct Ahead {
    pub memory: Option<RegisterWrite>,
    pub writeback: Option<RegisterWrite>,
}

// The register that done work writes, with the value in the slot. A load's value is not there yet, and no instruction
// that needs it stands behind it: its slot holds the address.
fn result_of(work: Work) -> Option<RegisterWrite>
    ensures { result ≡ result_of work }
{
    match work {
        Work::Write(write) => Some(write),
        Work::Load {
            register,
            address: value,
        } => Some(RegisterWrite { register, value }),
        Work::Compare | Work::Store(_) | Work::Branch { .. } => None,
    }
}

/// The register that the Memory slot writes, if it is done.
pub fn memory_write(slot: Option<MemorySlot>) -> Option<RegisterWrite>
    ensures { result ≡ memory_write slot }
{
    match slot?.pending {
        Pending::Done(work) => result_of(work),
        Pending::Skipped | Pending::Stopped(_) => None,
    }
}

fn names(write: Option<RegisterWrite>, register: Register) -> bool
    ensures { result ≡ names write register }
{
    write.is_some_and(|write| write.register == register)
}

impl Ahead {
    // Where a source value comes from: the Memory slot goes before the Writeback slot.
    fn code(self, register: Register) -> Forwarding
        ensures { result ≡ code_of self.memory self.writeback register }
    {
        if names(self.memory, register) {
            Forwarding::Memory
        } else if names(self.writeback, register) {
            Forwarding::Writeback
        } else {
            Forwarding::Register
        }
    }

    // The source value itself, in place of what Decode read.
    fn operand(self, register: Register, read: u32) -> u32
        ensures { result ≡ operand self.memory self.writeback register read }
    {
        let older = taking(self.writeback, register, read);
        taking(self.memory, register, older)
    }
}

fn taking(write: Option<RegisterWrite>, register: Register, value: u32) -> u32
    ensures { result ≡ taking write register value }
{
    match write {
        Some(write) if write.register == register => write.value,
        _ => value,
    }
}

// An instruction with its operands.
// Address, word and flags are the parts of a slot that is still being made, so they come one by one.
fn perform(flags: Flags, address: u32, word: u32, issue: Issue) -> MemorySlot
    ensures { result ≡ performed flags address word issue }
{
    let (pending, flags) = if issue.instruction.condition.holds(flags) {
        let (work, flags) = execute(issue.instruction.action, issue.first, issue.second, flags);
        (Pending::Done(work), flags)
    } else {
        (Pending::Skipped, flags)
    };
    MemorySlot {
        address,
        word,
        flags,
        pending,
    }
}

fn target_of(pending: Pending) -> Option<u32>
    ensures { result ≡ taken_by pending }
{
    match pending {
        Pending::Done(Work::Branch { target }) => Some(target),
        _ => None,
    }
}

fn hand_on(slot: MemorySlot, first: Forwarding, second: Forwarding) -> Executed
    ensures { result ≡ hands_on slot first second }
{
    Executed {
        slot: Some(slot),
        flags: slot.flags,
        taken: target_of(slot.pending),
        first,
        second,
    }
}

fn issue_on(ahead: Ahead, flags: Flags, address: u32, word: u32, issue: Issue) -> Executed
    ensures { result ≡ issued_on ahead.memory ahead.writeback flags address word (Ok issue) }
{
    let first = issue.instruction.first_source();
    let second = issue.instruction.second_source();
    let ready = Issue {
        instruction: issue.instruction,
        first: ahead.operand(first, issue.first),
        second: ahead.operand(second, issue.second),
    };
    hand_on(
        perform(flags, address, word, ready),
        ahead.code(first),
        ahead.code(second),
    )
}

/// What becomes of the Execute slot.
pub fn execute_stage(ahead: Ahead, flags: Flags, slot: Option<ExecuteSlot>) -> Executed
    ensures { result ≡ executed ahead.memory ahead.writeback flags slot }
{
    let Some(content) = slot else {
        return Executed {
            slot: None,
            flags,
            taken: None,
            first: Forwarding::Register,
            second: Forwarding::Register,
        };
    };
    let ExecuteSlot {
        address,
        word,
        issue,
    } = content;
    match issue {
        Ok(issue) => issue_on(ahead, flags, address, word, issue),
        Err(stop) => {
            let slot = MemorySlot {
                address,
                word,
                flags,
                pending: Pending::Stopped(stop),
            };
            hand_on(slot, Forwarding::Register, Forwarding::Register)
        }
    }
}
