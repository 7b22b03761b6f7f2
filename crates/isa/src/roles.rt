//! What an instruction reads and writes, and the numbers that it carries.

ghost use Rattle.std.specs.Prelude.{◌≡◌};
ghost use Rattle.isa.specs.TwosComplement.{low_bits};
ghost use Rattle.isa.specs.Roles.{first_source, second_source, destination_of, is_15, is_source, low_register, operand_value, byte_offset};

use super::instruction::{Action, Instruction, Operand};
use super::operation::Operation;
use super::register::Register;

impl Instruction {
    /// The register that supplies the first operand or the base address; a branch starts from R15.
    pub fn first_source(self) -> Register
        ensures { result ≡ first_source self.action }
    {
        match &self.action {
            Action::Data(data) => data.rn,
            Action::Load(transfer) | Action::Store(transfer) => transfer.rn,
            Action::Branch { .. } => Register::named_by(15),
        }
    }

    /// The register that is read beside the first: a store's Rd, and otherwise whatever bits 3:0 name, needed or not.
    pub fn second_source(self) -> Register
        ensures { result ≡ second_source self.action }
    {
        match &self.action {
            Action::Data(data) => data.operand.low_register(),
            Action::Load(transfer) => Register::named_by(u32::from(transfer.offset)),
            Action::Store(transfer) => transfer.rd,
            Action::Branch { offset } => Register::named_by(low_four(*offset)),
        }
    }

    /// The register that is written if the instruction is done.
    pub fn destination(self) -> Option<Register>
        ensures { result ≡ destination_of self.action }
    {
        match &self.action {
            Action::Data(data) => match data.operation {
                Operation::Cmp => None,
                _ => Some(data.rd),
            },
            Action::Load(transfer) => Some(transfer.rd),
            Action::Store(_) | Action::Branch { .. } => None,
        }
    }

    /// Whether it writes register 15, the next address, if it is done.
    pub fn writes_15(self) -> bool
        ensures { result ≡ is_15 (destination_of self.action) }
    {
        self.destination().is_some_and(|rd| rd.number() == 15)
    }

    /// Whether the register is one of its two sources, used or not.
    pub fn reads(self, register: Register) -> bool
        ensures { result ≡ is_source register self.action }
    {
        register == self.first_source() || register == self.second_source()
    }
}

impl Operand {
    /// The second operand of the arithmetic unit, where Rm, if there is one, holds `rm`.
    pub fn value(self, rm: u32) -> u32
        ensures { result ≡ operand_value self rm }
    {
        match self {
            Operand::Constant(constant) => u32::from(constant),
            Operand::Register(_) => rm,
        }
    }

    /// The register that bits 3:0 of the word name.
    fn low_register(self) -> Register
        ensures { result ≡ low_register self }
    {
        match self {
            Operand::Constant(constant) => Register::named_by(u32::from(constant)),
            Operand::Register(rm) => rm,
        }
    }
}

/// Bits 3:0 of a branch's offset.
fn low_four(offset: i32) -> u32
    ensures { result ≡ low_bits 4 offset }
{
    offset.cast_unsigned() % 16
}

/// A branch's distance in bytes, as the number to add modulo 2^32.
pub fn byte_offset(offset: i32) -> u32
    ensures { result ≡ byte_offset offset }
{
    offset.cast_unsigned().wrapping_mul(4)
}
