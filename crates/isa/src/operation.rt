//! The operations of the arithmetic unit, by name and by number.

ghost use Rattle.isa.specs.Operations.{operations, operation_number};
ghost use Rattle.isa.specs.Found.{operation_found};

use super::numbered::Numbered;

/// The five of the subset, with the number that stands for each in a word.
#[derive(Clone, Copy, PartialEq, Eq, Debug)]
pub enum Operation {
    And = 0,
    Sub = 2,
    Add = 4,
    Cmp = 10,
    Orr = 12,
}

impl Numbered for Operation {
    ghost all = { operations };

    ghost number_of = { operation_number };

    ghost found = { operation_found };

    fn number(self) -> u8 {
        self as u8
    }

    fn of_number(number: u32) -> Option<Operation> {
        match number {
            0 => Some(Operation::And),
            2 => Some(Operation::Sub),
            4 => Some(Operation::Add),
            10 => Some(Operation::Cmp),
            12 => Some(Operation::Orr),
            _ => None,
        }
    }
}
