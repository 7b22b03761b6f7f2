//! What an instruction says, apart from how a word says it.

ghost use Rattle.std.specs.Prelude.{◌≡◌};
ghost use Rattle.isa.specs.Operations.{in_subset};

use super::condition::Condition;
use super::operation::Operation;
use super::register::Register;

/// The second operand of a data-processing instruction.
#[derive(Clone, Copy, PartialEq, Eq, Debug)]
pub enum Operand {
    Constant(u8),
    Register(Register),
}

/// Rd becomes Rn with the operand; CMP only compares, and its Rd is 0.
#[derive(Clone, Copy, PartialEq, Eq, Debug)]
pub struct DataProcessing {
    pub operation: Operation,
    pub set_flags: bool,
    pub rn: Register,
    pub rd: Register,
    pub operand: Operand,
}

impl DataProcessing {
    /// CMP sets the flags and names no Rd; no other operation sets the flags and writes R15.
    pub(crate) fn in_subset(self) -> bool
        ensures { result ≡ in_subset self }
    {
        match self.operation {
            Operation::Cmp => self.set_flags && self.rd.number() == 0,
            _ => !(self.set_flags && self.rd.number() == 15),
        }
    }
}

/// Rd and the word at Rn + offset.
#[derive(Clone, Copy, PartialEq, Eq, Debug)]
pub struct Transfer {
    pub rn: Register,
    pub rd: Register,
    pub offset: u16,
}

/// What is done.
#[derive(Clone, Copy, PartialEq, Eq, Debug)]
pub enum Action {
    Data(DataProcessing),
    Load(Transfer),
    Store(Transfer),
    /// A signed count of words, from the branch's own address plus 8.
    Branch { offset: i32 },
}

/// An action and the condition under which it is done. Not every value has a word: a field may be too large for its
/// place, and some combinations lie outside the subset.
#[derive(Clone, Copy, PartialEq, Eq, Debug)]
pub struct Instruction {
    pub condition: Condition,
    pub action: Action,
}
