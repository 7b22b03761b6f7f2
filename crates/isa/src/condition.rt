//! The conditions under which an instruction is done.

ghost use Rattle.std.specs.Prelude.{◌≡◌};
ghost use Rattle.isa.specs.Conditions.{condition_holds, conditions, condition_number};
ghost use Rattle.isa.specs.Found.{condition_found};

use super::flags::Flags;
use super::numbered::Numbered;

/// In the manual's order, which is that of their numbers.
#[derive(Clone, Copy, PartialEq, Eq, Debug)]
pub enum Condition {
    Eq,
    Ne,
    Cs,
    Cc,
    Mi,
    Pl,
    Vs,
    Vc,
    Hi,
    Ls,
    Ge,
    Lt,
    Gt,
    Le,
    Al,
}

impl Condition {
    /// Whether an instruction of this condition is done at these flags.
    pub fn holds(self, flags: Flags) -> bool
        ensures { result ≡ condition_holds self flags }
    {
        match self {
            Condition::Eq => flags.z,
            Condition::Ne => !flags.z,
            Condition::Cs => flags.c,
            Condition::Cc => !flags.c,
            Condition::Mi => flags.n,
            Condition::Pl => !flags.n,
            Condition::Vs => flags.v,
            Condition::Vc => !flags.v,
            Condition::Hi => flags.c && !flags.z,
            Condition::Ls => !flags.c || flags.z,
            Condition::Ge => flags.n == flags.v,
            Condition::Lt => flags.n != flags.v,
            Condition::Gt => !flags.z && flags.n == flags.v,
            Condition::Le => flags.z || flags.n != flags.v,
            Condition::Al => true,
        }
    }
}

impl Numbered for Condition {
    ghost all = { conditions };

    ghost number_of = { condition_number };

    ghost found = { condition_found };

    fn number(self) -> u8 {
        self as u8
    }

    // A match, and no search in a list: decoding is done for every clock, and this takes no jump.
    fn of_number(number: u32) -> Option<Condition> {
        match number {
            0 => Some(Condition::Eq),
            1 => Some(Condition::Ne),
            2 => Some(Condition::Cs),
            3 => Some(Condition::Cc),
            4 => Some(Condition::Mi),
            5 => Some(Condition::Pl),
            6 => Some(Condition::Vs),
            7 => Some(Condition::Vc),
            8 => Some(Condition::Hi),
            9 => Some(Condition::Ls),
            10 => Some(Condition::Ge),
            11 => Some(Condition::Lt),
            12 => Some(Condition::Gt),
            13 => Some(Condition::Le),
            14 => Some(Condition::Al),
            _ => None,
        }
    }
}
