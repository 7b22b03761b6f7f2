// Routines written by hand: text into words, and words into the bytes of a program image.
#![tactic(auto)]

mod block;
mod digits;
mod error;
mod line;
mod message;
pub mod pack;
mod reading;
pub mod text;

pub use error::{PackError, Reason, TextError, TextFault};
