// Text into words: one to a line, in hexadecimal digits, with comments and blank lines between.
ghost use Rattle.std.specs.Prelude.{◌≡◌, ◌++◌, OnOk};
ghost use Rattle.std.specs.Option.{option_to_list};
ghost use Rattle.packing.specs.TextLaws.{Examples, ReadBack};
ghost use Rattle.packing.specs.Texts.{Answers, words_of};

use crate::error::TextError;
use crate::line::Place;
use crate::reading::Reading;
use std::alloc::{AllocError, Global};

fn keep(words: &mut Vec<u32>, word: Option<u32>) -> Result<(), AllocError>
    ensures { OnOk result (words.new.items ≡ words.old.items ++ option_to_list word) }
{
    if let Some(word) = word {
        words.push(word)?;
    }
    Ok(())
}

/// The words of the text. Refused at the first line that has anything but a word of one to eight hexadecimal digits,
/// blanks around it and a comment behind it.
pub fn words_of(heap: Global, text: &[u8]) -> Result<Vec<u32>, TextError>
    ensures { Answers (words_of text.now) result }
{
    let mut words = Vec::new(heap);
    let mut reading = Reading {
        ended: 0,
        place: Place::Before,
    };
    for byte in text {
        keep(&mut words, reading.advance(*byte)?)?;
    }
    keep(&mut words, reading.word())?;
    Ok(words)
}

/// Does nothing. Its contract says that words which are written out, one to a line, are read back, and that the examples
/// in specs/ hold.
pub fn laws_hold()
    ensures read_back { ReadBack }
    ensures examples { Examples }
{}
