//! The instruction set: what each 32-bit word of the subset means.
#![tactic(auto)]

mod alu;
pub mod assembly;
pub mod condition;
pub mod decode;
pub mod disassembly;
pub mod encode;
mod fields;
pub mod flags;
pub mod hex;
pub mod instruction;
pub mod laws;
mod numbered;
pub mod operation;
pub mod register;
pub mod roles;

pub use assembly::Assembly;
pub use condition::Condition;
pub use disassembly::Disassembly;
pub use encode::NoWord;
pub use flags::Flags;
pub use instruction::{Action, DataProcessing, Instruction, Operand, Transfer};
pub use operation::Operation;
pub use register::Register;
