//! The condition flags.

ghost use Rattle.std.specs.Prelude.{◌≡◌};
ghost use Rattle.isa.specs.StatusFlags.{flag_bits};

/// Negative, zero, carry and overflow, as the last instruction that sets flags left them.
#[derive(Clone, Copy, PartialEq, Eq, Default, Debug)]
pub struct Flags {
    pub n: bool,
    pub z: bool,
    pub c: bool,
    pub v: bool,
}

impl Flags {
    /// The four flags as one number, N the highest bit.
    pub fn bits(self) -> u8
        ensures { result ≡ flag_bits self }
    {
        u8::from(self.n) * 8 + u8::from(self.z) * 4 + u8::from(self.c) * 2 + u8::from(self.v)
    }
}
