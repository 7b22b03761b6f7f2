// What the program says of a refusal.
ghost use Rattle.std.specs.Prelude.{Some};
ghost use Rattle.packing.specs.Messages.{fault_message, pack_message, reason_message, text_message};

use crate::error::{PackError, Reason, TextError, TextFault};
use crate::pack::MOST_WORDS;
use std::error::Error;
use std::fmt;

impl fmt::Display for Reason {
    ghost output = { λ reason. Some (reason_message reason) };

    fn fmt<W: fmt::Write>(&self, f: &mut fmt::Formatter<W>) -> fmt::Result {
        match self {
            Reason::NotHex => write!(f, "not a hexadecimal digit"),
            Reason::TooLong => write!(f, "more than eight digits"),
            Reason::TwoWords => write!(f, "something other than a comment behind the word"),
        }
    }
}

impl fmt::Display for TextFault {
    ghost output = { λ fault. Some (fault_message fault) };

    fn fmt<W: fmt::Write>(&self, f: &mut fmt::Formatter<W>) -> fmt::Result {
        let TextFault { line, reason } = self;
        write!(f, "line {line}: {reason}")
    }
}

impl fmt::Display for TextError {
    ghost output = { λ error. Some (text_message error) };

    fn fmt<W: fmt::Write>(&self, f: &mut fmt::Formatter<W>) -> fmt::Result {
        match self {
            TextError::Fault(fault) => write!(f, "{fault}"),
            TextError::OutOfMemory => write!(f, "no memory"),
        }
    }
}

impl fmt::Display for PackError {
    ghost output = { λ error. Some (pack_message error) };

    fn fmt<W: fmt::Write>(&self, f: &mut fmt::Formatter<W>) -> fmt::Result {
        match self {
            PackError::NoWords => write!(f, "no words"),
            PackError::TooManyWords => write!(f, "more than {MOST_WORDS} words"),
            PackError::OutOfMemory => write!(f, "no memory"),
        }
    }
}

impl Error for Reason {}

impl Error for TextFault {}

impl Error for TextError {}

impl Error for PackError {}
