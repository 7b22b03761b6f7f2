//! What a word means as text: its instruction, or a dash.

ghost use Rattle.std.specs.Prelude.{◌≡◌, Some};
ghost use Rattle.isa.specs.Decoding.{decoded};
ghost use Rattle.isa.specs.Syntax.{or_dash};

use super::assembly::Assembly;
use super::decode::decode;
use super::instruction::Instruction;
use std::fmt;

/// What stands at an address. It prints as its instruction, or as a dash where there is none.
#[derive(Clone, Copy, PartialEq, Eq, Debug)]
pub struct Disassembly {
    pub address: u32,
    pub instruction: Option<Instruction>,
}

impl Disassembly {
    /// What a word at an address means.
    pub fn of(address: u32, word: u32) -> Disassembly
        ensures { result ≡ record { address = address; instruction = decoded word } }
    {
        let instruction = decode(word);
        Disassembly {
            address,
            instruction,
        }
    }
}

impl fmt::Display for Disassembly {
    ghost output = { λ d. Some (or_dash d.address d.instruction) };

    fn fmt<W: fmt::Write>(&self, f: &mut fmt::Formatter<W>) -> fmt::Result {
        let address = self.address;
        match self.instruction {
            Some(instruction) => {
                let assembly = Assembly {
                    address,
                    instruction,
                };
                write!(f, "{assembly}")
            }
            None => write!(f, "-"),
        }
    }
}
