//! Words in hexadecimal digits.

ghost use Rattle.std.specs.Prelude.{◌≡◌, ◌%◌, ◌<◌, [], ◌∷◌, Some};
ghost use Rattle.isa.specs.Hexadecimal.{digit_code, hex_text};

use std::{array, fmt};

/// The lowest hexadecimal digit of a number: 0 to 9, then a to f.
fn digit(number: u32) -> u8
    ensures { result ≡ digit_code (number % 16) }
{
    let digit = (number % 16) as u8;
    if digit < 10 {
        b'0' + digit
    } else {
        b'a' - 10 + digit
    }
}

/// A word in eight digits.
pub fn digits(word: u32) -> [u8; 8]
    ensures { result ≡ hex_text word }
{
    array::from_fn(|k| digit(word >> (28 - 4 * k)))
}

/// A word that is printed in eight digits.
#[derive(Clone, Copy, PartialEq, Eq, Debug)]
pub struct Hex(pub u32);

impl fmt::Display for Hex {
    ghost output = { λ w. Some (hex_text w.0) };

    fn fmt<W: fmt::Write>(&self, f: &mut fmt::Formatter<W>) -> fmt::Result {
        match str::from_utf8(&digits(self.0)) {
            Ok(text) => f.write_str(text),
            // Digits are ASCII.
            Err(_) => unreachable(),
        }
    }
}
