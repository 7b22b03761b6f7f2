//! From a word to its instruction.

ghost use Rattle.std.specs.Prelude.{◌≡◌, ◌^◌, ◌<◌, Some, Ok};
ghost use Rattle.isa.specs.Decoding.{decoded, action_of, data_action, operand_of, transfer_of};
ghost use Rattle.isa.specs.Encoding.{encoded};
ghost use Rattle.isa.specs.TwosComplement.{signed};

use super::condition::Condition;
use super::fields::*;
use super::instruction::{Action, DataProcessing, Instruction, Operand, Transfer};
use super::operation::Operation;
use super::register::Register;

/// The instruction that a word stands for; none if the word is outside the subset.
pub fn decode(word: u32) -> Option<Instruction>
    ensures value { result ≡ decoded word }
    ensures exact { (i : Instruction) → result ≡ Some i → encoded i ≡ Ok word }
{
    let condition: Condition = CONDITION.named(word)?;
    let action = action_of(word)?;
    Some(Instruction { condition, action })
}

/// The rest of the instruction, whatever its condition.
fn action_of(word: u32) -> Option<Action>
    ensures { result ≡ action_of word }
{
    if KIND.of(word) == DATA {
        data_of(word)
    } else if TRANSFER.of(word) == LDR {
        Some(Action::Load(transfer_of(word)))
    } else if TRANSFER.of(word) == STR {
        Some(Action::Store(transfer_of(word)))
    } else if BRANCH.of(word) == B {
        let offset = sign_extended(DISTANCE.of(word));
        Some(Action::Branch { offset })
    } else {
        None
    }
}

/// A data-processing instruction, from its operation and operand on.
fn data_of(word: u32) -> Option<Action>
    ensures { result ≡ data_action word }
{
    let operation: Operation = OPCODE.named(word)?;
    let operand = operand_of(word)?;
    let data = DataProcessing {
        operation,
        set_flags: SET.of(word) == 1,
        rn: Register::named_by(RN.of(word)),
        rd: Register::named_by(RD.of(word)),
        operand,
    };
    data.in_subset().then_some(Action::Data(data))
}

/// A constant or a register; bits that would rotate or shift it have to be 0.
fn operand_of(word: u32) -> Option<Operand>
    ensures { result ≡ operand_of word }
{
    if IMMEDIATE.of(word) == 1 {
        let constant = Operand::Constant(CONSTANT.of(word) as u8);
        (ROTATION.of(word) == 0).then_some(constant)
    } else {
        let rm = Operand::Register(Register::named_by(RM.of(word)));
        (SHIFT.of(word) == 0).then_some(rm)
    }
}

/// The registers and the offset of a load or a store.
fn transfer_of(word: u32) -> Transfer
    ensures { result ≡ transfer_of word }
{
    let rn = Register::named_by(RN.of(word));
    let rd = Register::named_by(RD.of(word));
    let offset = OFFSET.of(word) as u16;
    Transfer { rn, rd, offset }
}

/// A branch's distance with its bit 23 as the sign.
fn sign_extended(distance: u32) -> i32
    requires { distance < 2 ^ 24 }
    ensures { result ≡ signed 24 distance }
{
    let distance = distance as i32;
    if distance < 1 << 23 {
        distance
    } else {
        distance - (1 << 24)
    }
}
