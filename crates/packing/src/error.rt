// Why text is not read, and why words are not packed.
ghost use Rattle.std.specs.Prelude.{◌≡◌};
ghost use Rattle.packing.specs.declared.error.PackError.TheVariants.{OutOfMemory as NoMemory};
ghost use Rattle.packing.specs.declared.error.TextError.TheVariants.{Fault, OutOfMemory};

use std::alloc::AllocError;

/// What a line has that it should not have.
#[derive(Clone, Copy, PartialEq, Eq, Debug)]
pub enum Reason {
    /// A byte in a word, or before it, that is no hexadecimal digit.
    NotHex,
    /// A ninth digit.
    TooLong,
    /// Something behind the word that is neither blank nor a comment.
    TwoWords,
}

/// The first line that is refused, counted from 1.
#[derive(Clone, Copy, PartialEq, Eq, Debug)]
pub struct TextFault {
    pub line: usize,
    pub reason: Reason,
}

/// What is wrong with the text, or that memory ran out before that was seen.
#[derive(Clone, Copy, PartialEq, Eq, Debug)]
pub enum TextError {
    Fault(TextFault),
    OutOfMemory,
}

/// What `?` makes of a line that is refused.
impl From<TextFault> for TextError {
    ghost from_gives = { λ fault r. r ≡ Fault fault };

    fn from(fault: TextFault) -> TextError {
        TextError::Fault(fault)
    }
}

/// What `?` makes of want of memory.
impl From<AllocError> for TextError {
    ghost from_gives = { λ _ r. r ≡ OutOfMemory };

    fn from(_error: AllocError) -> TextError {
        TextError::OutOfMemory
    }
}

/// What is wrong with the words, or that memory ran out.
#[derive(Clone, Copy, PartialEq, Eq, Debug)]
pub enum PackError {
    NoWords,
    TooManyWords,
    OutOfMemory,
}

/// What `?` makes of want of memory.
impl From<AllocError> for PackError {
    ghost from_gives = { λ _ r. r ≡ NoMemory };

    fn from(_error: AllocError) -> PackError {
        PackError::OutOfMemory
    }
}
