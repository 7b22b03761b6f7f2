// Registers 0 to 14. Register 15 is no cell: it reads as the instruction's address plus 8, and writing it sets the
// next address.
ghost use Rattle.std.specs.Prelude.{◌≡◌, [], replicate};
ghost use Rattle.stepper.specs.Registers.{cell_of, read_at, written, unknown_number};

use super::event::RegisterWrite;
use isa::register::Register;

/// The values of registers 0 to 14.
#[derive(Clone, Copy, PartialEq, Eq, Debug)]
pub struct Registers {
    values: [u32; 15],
}

/// A register above 14 was asked for.
#[derive(Clone, Copy, PartialEq, Eq, Debug)]
pub struct UnknownRegister;

impl UnknownRegister {
    /// The number by which users know the refusal: 13.
    pub fn number(self) -> u8
        ensures { result ≡ unknown_number }
    {
        13
    }
}

impl Registers {
    /// All registers 0.
    pub fn new() -> Registers
        ensures { result.values ≡ replicate 15 0 }
    {
        Registers { values: [0; 15] }
    }

    /// What stands in a register, by its number.
    pub fn cell(&self, number: u8) -> Result<u32, UnknownRegister>
        ensures { result ≡ cell_of self.now.values number }
    {
        self.values
            .get(usize::from(number))
            .copied()
            .ok_or(UnknownRegister)
    }

    /// What an instruction at an address reads in a register.
    pub fn read(&self, register: Register, address: u32) -> u32
        ensures { result ≡ read_at self.now.values address register }
    {
        self.cell(register.number())
            .unwrap_or(address.wrapping_add(8))
    }

    /// Gives a register its new value, if one is written and it is a cell.
    pub fn write(&mut self, write: Option<RegisterWrite>)
        ensures { self.new.values ≡ written self.old.values write }
    {
        if let Some(RegisterWrite { register, value }) = write {
            let number = usize::from(register.number());
            if number < self.values.len() {
                self.values[number] = value;
            }
        }
    }
}
