//! The arithmetic unit.

ghost use Rattle.std.specs.Prelude.{◌≡◌, ◌/◌, ◌%◌, ◌^◌, not, ◌+ℤ◌, ◌-ℤ◌, ◌==◌};
ghost use Rattle.isa.specs.Arithmetic.{result_of, flags_after};
ghost use Rattle.isa.specs.TwosComplement.{signed, fits_signed};

use super::flags::Flags;
use super::operation::Operation;

impl Operation {
    /// The result, and the flags for an instruction that sets them. CMP's result is the difference, which nobody
    /// writes.
    pub fn apply(self, first: u32, second: u32, before: Flags) -> (u32, Flags)
        ensures { result ≡ (result_of self first second, flags_after self first second before) }
    {
        match self {
            Operation::And => answer(first & second, before.c, before.v),
            Operation::Orr => answer(first | second, before.c, before.v),
            Operation::Add => {
                let (sum, c) = first.overflowing_add(second);
                let v = first.cast_signed().checked_add(second.cast_signed());
                answer(sum, c, v.is_none())
            }
            Operation::Sub | Operation::Cmp => {
                let difference = first.wrapping_sub(second);
                let v = first.cast_signed().checked_sub(second.cast_signed());
                answer(difference, first >= second, v.is_none())
            }
        }
    }
}

/// A result with the flags that follow from it.
fn answer(res: u32, c: bool, v: bool) -> (u32, Flags)
    ensures { result ≡ (res, record { n = (res / 2 ^ 31 % 2 == 1); z = (res == 0); c = c; v = v }) }
{
    let n = res >> 31 == 1;
    let z = res == 0;
    (res, Flags { n, z, c, v })
}
