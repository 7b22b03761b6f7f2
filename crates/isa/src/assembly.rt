//! Instructions as text, in the manual's syntax.

ghost use Rattle.std.specs.Prelude.{◌≡◌, Some};
ghost use Rattle.isa.specs.Syntax.{condition_text, operation_text, register_text, operand_text, transfer_text, branch_target, assembly_text};

use super::condition::Condition;
use super::hex::Hex;
use super::instruction::{Action, DataProcessing, Instruction, Operand, Transfer};
use super::operation::Operation;
use super::register::Register;
use super::roles::byte_offset;
use std::fmt;

/// An instruction and where it stands, which a branch needs to name its target.
#[derive(Clone, Copy, PartialEq, Eq, Debug)]
pub struct Assembly {
    pub address: u32,
    pub instruction: Instruction,
}

/// What a condition adds to the mnemonic.
impl fmt::Display for Condition {
    ghost output = { λ c. Some (condition_text c) };

    fn fmt<W: fmt::Write>(&self, f: &mut fmt::Formatter<W>) -> fmt::Result {
        f.write_str(match self {
            Condition::Eq => "EQ",
            Condition::Ne => "NE",
            Condition::Cs => "CS",
            Condition::Cc => "CC",
            Condition::Mi => "MI",
            Condition::Pl => "PL",
            Condition::Vs => "VS",
            Condition::Vc => "VC",
            Condition::Hi => "HI",
            Condition::Ls => "LS",
            Condition::Ge => "GE",
            Condition::Lt => "LT",
            Condition::Gt => "GT",
            Condition::Le => "LE",
            Condition::Al => "",
        })
    }
}

impl fmt::Display for Operation {
    ghost output = { λ o. Some (operation_text o) };

    fn fmt<W: fmt::Write>(&self, f: &mut fmt::Formatter<W>) -> fmt::Result {
        f.write_str(match self {
            Operation::And => "AND",
            Operation::Sub => "SUB",
            Operation::Add => "ADD",
            Operation::Cmp => "CMP",
            Operation::Orr => "ORR",
        })
    }
}

impl fmt::Display for Register {
    ghost output = { λ r. Some (register_text r) };

    fn fmt<W: fmt::Write>(&self, f: &mut fmt::Formatter<W>) -> fmt::Result {
        let number = self.number();
        write!(f, "R{number}")
    }
}

impl fmt::Display for Operand {
    ghost output = { λ o. Some (operand_text o) };

    fn fmt<W: fmt::Write>(&self, f: &mut fmt::Formatter<W>) -> fmt::Result {
        match *self {
            Operand::Constant(constant) => write!(f, "#{constant}"),
            Operand::Register(rm) => write!(f, "{rm}"),
        }
    }
}

impl fmt::Display for Transfer {
    ghost output = { λ t. Some (transfer_text t) };

    fn fmt<W: fmt::Write>(&self, f: &mut fmt::Formatter<W>) -> fmt::Result {
        let Transfer { rn, rd, offset } = *self;
        if offset == 0 {
            write!(f, "{rd}, [{rn}]")
        } else {
            write!(f, "{rd}, [{rn}, #{offset}]")
        }
    }
}

impl fmt::Display for Assembly {
    ghost output = { λ a. Some (assembly_text a) };

    fn fmt<W: fmt::Write>(&self, f: &mut fmt::Formatter<W>) -> fmt::Result {
        let Instruction { condition, action } = self.instruction;
        match action {
            Action::Data(data) => {
                let DataProcessing {
                    operation,
                    set_flags,
                    rn,
                    rd,
                    operand,
                } = data;
                let s = if set_flags { "S" } else { "" };
                match operation {
                    Operation::Cmp => write!(f, "{operation}{condition} {rn}, {operand}"),
                    _ => write!(f, "{operation}{s}{condition} {rd}, {rn}, {operand}"),
                }
            }
            Action::Load(transfer) => write!(f, "LDR{condition} {transfer}"),
            Action::Store(transfer) => write!(f, "STR{condition} {transfer}"),
            Action::Branch { offset } => {
                let target = Hex(branch_target(self.address, offset));
                write!(f, "B{condition} 0x{target}")
            }
        }
    }
}

/// A branch counts from its own address plus 8.
fn branch_target(address: u32, offset: i32) -> u32
    ensures { result ≡ branch_target address offset }
{
    address.wrapping_add(8).wrapping_add(byte_offset(offset))
}
