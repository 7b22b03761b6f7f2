//! From a number to a register, and back.

ghost use Rattle.std.specs.Prelude.{◌≡◌, ◌≤◌, MatchOption};
ghost use Rattle.isa.specs.Registers.{register};

use super::Register;

impl Register {
    /// The register of this number, if there is one.
    // No `TryFrom`: a number above 15 is no error here, as none is in `char::from_u32`.
    pub fn new(number: u8) -> Option<Register>
        ensures { MatchOption result (16 ≤ number) (λ x. x.number ≡ number) }
    {
        if number < 16 {
            Some(Register { number })
        } else {
            None
        }
    }

    /// The register that the low four bits of a value name.
    pub(crate) fn named_by(value: u32) -> Register
        ensures { result ≡ register value }
    {
        Register {
            number: (value % 16) as u8,
        }
    }

    /// 0 to 15.
    pub fn number(self) -> u8
        ensures { result ≡ self.number }
    {
        self.number
    }
}
