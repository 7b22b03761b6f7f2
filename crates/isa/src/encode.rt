//! From an instruction to its word.

ghost use Rattle.std.specs.Prelude.{◌≡◌, ℕ, ◌^◌, ◌<◌, Some, Ok};
ghost use Rattle.isa.specs.Decoding.{decoded};
ghost use Rattle.isa.specs.Encoding.{encoded, has_word, data_fields, transfer_fields, action_fields};
ghost use Rattle.isa.specs.Layout.{assembled};
ghost use Rattle.isa.specs.Refusals.{no_word};

use super::fields::*;
use super::instruction::{Action, DataProcessing, Instruction, Operand, Transfer};
use super::numbered::Numbered;

/// No word stands for the instruction.
#[derive(Clone, Copy, PartialEq, Eq, Debug)]
pub struct NoWord;

impl NoWord {
    /// The number by which users know this refusal.
    pub fn number(self) -> u8
        ensures { result ≡ no_word }
    {
        18
    }
}

/// The word of an instruction, if it has one.
pub fn encode(instruction: Instruction) -> Result<u32, NoWord>
    ensures value { result ≡ encoded instruction }
    ensures exact { (word : ℕ) → result ≡ Ok word → (word < 2 ^ 32) × (decoded word ≡ Some instruction) }
{
    let Instruction { condition, action } = instruction;
    if !has_word(action) {
        return Err(NoWord);
    }
    let word = match action {
        Action::Data(data) => data_word(data),
        Action::Load(transfer) => transfer_word(LDR, transfer),
        Action::Store(transfer) => transfer_word(STR, transfer),
        Action::Branch { offset } => branch_word(offset),
    };
    Ok(CONDITION.put(word, u32::from(condition.number())))
}

/// The subset has the combination, and each number has room in its field.
fn has_word(action: Action) -> bool
    ensures { result ≡ has_word action }
{
    match action {
        Action::Data(data) => data.in_subset(),
        Action::Load(transfer) | Action::Store(transfer) => transfer.offset < 4096,
        Action::Branch { offset } => -(1 << 23) <= offset && offset < 1 << 23,
    }
}

/// All but the condition of a data-processing instruction.
fn data_word(data: DataProcessing) -> u32
    ensures value { result ≡ assembled (data_fields «data») }
    ensures bound { result < 2 ^ 28 }
{
    let (immediate, operand) = match data.operand {
        Operand::Constant(constant) => (1, CONSTANT.put(0, u32::from(constant))),
        Operand::Register(rm) => (0, RM.put(0, u32::from(rm.number()))),
    };
    let word = RD.put(operand, u32::from(data.rd.number()));
    let word = RN.put(word, u32::from(data.rn.number()));
    let word = SET.put(word, u32::from(data.set_flags));
    let word = OPCODE.put(word, u32::from(data.operation.number()));
    let word = IMMEDIATE.put(word, immediate);
    KIND.put(word, DATA)
}

/// All but the condition of a load or a store.
fn transfer_word(code: u32, transfer: Transfer) -> u32
    requires code { code < 2 ^ 8 }
    requires offset { transfer.offset < 2 ^ 12 }
    ensures value { result ≡ assembled (transfer_fields code transfer) }
    ensures bound { result < 2 ^ 28 }
{
    let word = OFFSET.put(0, u32::from(transfer.offset));
    let word = RD.put(word, u32::from(transfer.rd.number()));
    let word = RN.put(word, u32::from(transfer.rn.number()));
    TRANSFER.put(word, code)
}

/// All but the condition of a branch.
fn branch_word(offset: i32) -> u32
    ensures value { result ≡ assembled (action_fields (Action.Branch offset)) }
    ensures bound { result < 2 ^ 28 }
{
    let distance = DISTANCE.of(offset.cast_unsigned());
    BRANCH.put(DISTANCE.put(0, distance), B)
}
