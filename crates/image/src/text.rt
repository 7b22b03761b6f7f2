// A refusal as the programs print it: the word `image`, the number and the block's place. Want of memory is said in words.
ghost use Rattle.std.specs.Prelude.{Some};
ghost use Rattle.image.specs.Refusals.{error_text, refusal_text};

use crate::refusal::{OpenError, Refusal};
use std::error::Error;
use std::fmt;

impl fmt::Display for Refusal {
    ghost output = { λ refusal. Some (refusal_text refusal) };

    fn fmt<W: fmt::Write>(&self, f: &mut fmt::Formatter<W>) -> fmt::Result {
        let number = self.number();
        let place = self.place();
        write!(f, "image {number} {place}")
    }
}

impl fmt::Display for OpenError {
    ghost output = { λ error. Some (error_text error) };

    fn fmt<W: fmt::Write>(&self, f: &mut fmt::Formatter<W>) -> fmt::Result {
        match self {
            OpenError::Refused(refusal) => write!(f, "{refusal}"),
            OpenError::OutOfMemory => write!(f, "no memory for the image"),
        }
    }
}

impl Error for OpenError {}
