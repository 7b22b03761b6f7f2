//! A register's name. The number's bound travels with the value, so that nobody tests it again.

ghost use Rattle.std.specs.Prelude.{◌<◌};

mod naming;

/// One of R0 to R15.
#[derive(Clone, Copy, PartialEq, Eq, Debug)]
pub struct Register {
    number: u8,
    ghost ok: { number < 16 },
}
