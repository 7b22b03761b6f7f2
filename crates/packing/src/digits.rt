// The hexadecimal digits of a word.
ghost use Rattle.std.specs.Prelude.{◌≡◌, ℕ, ◌^◌, ◌<◌};
ghost use Rattle.packing.specs.Digits.{Written, more_digits};

use std::marker::Model;

/// The value of a hexadecimal digit.
#[derive(Clone, Copy)]
pub struct Digit {
    pub(crate) value: u8,
}

impl Model for Digit {
    ghost Value = { ℕ };

    ghost view = { λ d. d.value };

    ghost invariant = { λ d. d.value < 16 };

    ghost inverse = { λ value. record { value = value } };
}

/// What the digits of a word say so far, and how many they are. So many digits make no larger number.
#[derive(Clone, Copy)]
pub struct Spelled {
    // The count lies first: a text is read faster so.
    digits: u8,
    word: u32,
}

impl Model for Spelled {
    ghost Value = { Written };

    ghost view = { λ s. record { word = s.word; digits = s.digits } };

    ghost invariant = { λ s. s.word < 16 ^ s.digits };

    ghost inverse = { λ s. record { word = s.word; digits = s.digits } };
}

impl Spelled {
    pub fn first(digit: Digit) -> Spelled
        ensures { result ≡ record { word = digit; digits = 1 } }
    {
        Spelled {
            word: u32::from(digit.value),
            digits: 1,
        }
    }

    /// With one more digit, if there is room for it.
    pub fn followed_by(&self, digit: Digit) -> Option<Spelled>
        ensures { result ≡ more_digits self.now digit }
    {
        if self.digits >= 8 {
            return None;
        }
        Some(Spelled {
            word: self.word * 16 + u32::from(digit.value),
            digits: self.digits + 1,
        })
    }

    pub fn word(&self) -> u32
        ensures { result ≡ self.now.word }
    {
        self.word
    }
}
