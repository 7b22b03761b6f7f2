//! Things of which a word holds the number.

ghost use Rattle.std.specs.Prelude.{◌≡◌, ℕ, ◌<◌, List, Some};
ghost use Rattle.isa.specs.Layout.{field};
ghost use Rattle.isa.specs.Numbered.{numbered};

use super::fields::Field;

/// One of a few things that have a number each.
pub(crate) trait Numbered: Copy {
    /// All of them.
    ghost all: { List Self };

    /// The number of each.
    ghost number_of: { Self → ℕ };

    /// The number that stands for it in a word.
    fn number(self) -> u8
        ensures { result ≡ number_of self };

    /// The one of a number, if there is one.
    fn of_number(number: u32) -> Option<Self>
        ensures { result ≡ numbered number_of all number };

    /// Each is found by its number.
    ghost found: { (x : Self) → numbered number_of all (number_of x) ≡ Some x };
}

impl Field {
    /// What a word names by the number in this field, if it names anything.
    pub fn named<T: Numbered>(self, word: u32) -> Option<T>
        requires low { self.low < 32 }
        requires narrow { self.width < 32 }
        ensures { result ≡ numbered T.number_of T.all (field self word) }
    {
        T::of_number(self.of(word))
    }
}
