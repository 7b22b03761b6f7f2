//! The fields of an instruction word: where each stands, and the only two functions that work on bits.

ghost use Rattle.std.specs.Prelude.{◌≡◌, ◌+◌, ◌^◌, ◌<◌};
ghost use Rattle.isa.specs.Layout.{field, placed};

/// A run of `width` bits, of which the lowest is bit `low`.
// That it lies in a word is asked where it is used: as a ghost field it would put a proof into each line of the manual's table.
#[derive(Clone, Copy, PartialEq, Eq, Debug)]
pub struct Field {
    low: u32,
    width: u32,
}

// Every instruction.
pub const CONDITION: Field = Field { low: 28, width: 4 };

// Data processing.
pub const KIND: Field = Field { low: 26, width: 2 };

pub const DATA: u32 = 0;

pub const IMMEDIATE: Field = Field { low: 25, width: 1 };

pub const OPCODE: Field = Field { low: 21, width: 4 };

pub const SET: Field = Field { low: 20, width: 1 };

pub const RN: Field = Field { low: 16, width: 4 };

pub const RD: Field = Field { low: 12, width: 4 };

// Its operand, if a constant.
pub const ROTATION: Field = Field { low: 8, width: 4 };

pub const CONSTANT: Field = Field { low: 0, width: 8 };

// Its operand, if a register.
pub const SHIFT: Field = Field { low: 4, width: 8 };

pub const RM: Field = Field { low: 0, width: 4 };

// Load and store, beside RN and RD.
pub const TRANSFER: Field = Field { low: 20, width: 8 };

pub const LDR: u32 = 0x59;

pub const STR: u32 = 0x58;

pub const OFFSET: Field = Field { low: 0, width: 12 };

// Branch.
pub const BRANCH: Field = Field { low: 24, width: 4 };

pub const B: u32 = 0xA;

pub const DISTANCE: Field = Field { low: 0, width: 24 };

impl Field {
    /// The value that a word has in this field.
    pub fn of(self, word: u32) -> u32
        requires low { self.low < 32 }
        requires narrow { self.width < 32 }
        ensures { result ≡ field self word }
    {
        (word >> self.low) % (1 << self.width)
    }

    /// A word with a value put into this field, where there was 0.
    pub fn put(self, word: u32, value: u32) -> u32
        requires low { self.low < 32 }
        requires fits { placed self value + word < 2 ^ 32 }
        ensures { result ≡ placed self value + word }
    {
        (value << self.low) + word
    }
}
