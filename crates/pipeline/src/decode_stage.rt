// Decode: says what a fetched word is, reads the source registers, and waits for a load that one of them depends on.
ghost use Rattle.std.specs.Prelude.{◌≡◌};
ghost use Rattle.pipeline.specs.DecodeStage.{understood, reading, held_in, awaited, sourced, stalls, passing, to_execute};

use crate::slots::{Change, DecodeSlot, ExecuteSlot, Issue};
use isa::decode::decode;
use isa::instruction::{Action, Instruction};
use isa::register::Register;
use memory::fault::Fault;
use stepper::event::Stop;
use stepper::registers::Registers;

// What a fetched word is: an instruction, or a stop.
fn understand(fetched: Result<u32, Fault>) -> Result<Instruction, Stop>
    ensures { result ≡ understood fetched }
{
    let word = fetched.map_err(Stop::Fetch)?;
    decode(word).ok_or(Stop::Outside)
}

// The two source registers are read.
fn read_sources(
    registers: &Registers,
    address: u32,
    instruction: Result<Instruction, Stop>,
) -> Result<Issue, Stop>
    ensures { result ≡ reading registers.now.values address instruction }
{
    instruction.map(|instruction| Issue {
        instruction,
        first: registers.read(instruction.first_source(), address),
        second: registers.read(instruction.second_source(), address),
    })
}

// The register that a load in Execute brings, whatever its condition.
fn awaited(slot: Option<ExecuteSlot>) -> Option<Register>
    ensures { result ≡ awaited slot }
{
    match slot?.issue.ok()?.instruction.action {
        Action::Load(transfer) => Some(transfer.rd),
        _ => None,
    }
}

fn sourced(register: Option<Register>, instruction: Instruction) -> bool
    ensures { result ≡ sourced register instruction.action }
{
    register.is_some_and(|register| instruction.reads(register))
}

/// What the Decode slot holds, if it is full.
pub fn held_in(slot: Option<DecodeSlot>) -> Option<Result<Instruction, Stop>>
    ensures { result ≡ held_in slot }
{
    slot.map(|content| understand(content.fetched))
}

/// Whether Decode has to wait for a load in Execute.
pub fn stalls(execute: Option<ExecuteSlot>, held: Option<Result<Instruction, Stop>>) -> bool
    ensures { result ≡ stalls (awaited execute) held }
{
    let waits = |instruction| sourced(awaited(execute), instruction);
    held.is_some_and(|found| found.is_ok_and(waits))
}

/// What passes from Decode to Execute, if nothing holds it up.
pub fn pass(
    registers: &Registers,
    slot: Option<DecodeSlot>,
    held: Option<Result<Instruction, Stop>>,
) -> Change<ExecuteSlot>
    ensures { result ≡ passing registers.now.values slot held }
{
    match (slot, held) {
        (Some(content), Some(instruction)) => Change::Fill(ExecuteSlot {
            address: content.address,
            word: content.fetched.unwrap_or(0),
            issue: read_sources(registers, content.address, instruction),
        }),
        _ => Change::Empty,
    }
}

/// What becomes of the Execute slot: a stall or a taken branch leaves it empty.
pub fn to_execute(taken: Option<u32>, stall: bool, pass: Change<ExecuteSlot>) -> Change<ExecuteSlot>
    ensures { result ≡ to_execute taken stall pass }
{
    if taken.is_some() || stall {
        Change::Empty
    } else {
        pass
    }
}
